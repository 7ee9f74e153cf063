//! The rows of an ended run.
ghost use Rattle.std.specs.Prelude.{◌≡◌, length, IfOk};
ghost use Rattle.desk.specs.Desks.{results_of, row_of};
ghost use Rattle.desk.specs.Views.{HasRoom};

use super::stage::{Desk, Stage};
use agreement::Outcome;
use board::Decision;
use reading::Reading;
use std::alloc::{AllocError, Global};

// What a node had decided of each item, up to the first that is refused.
fn results<R: Copy>(
    heap: Global,
    outcome: &Outcome,
    values: &[Option<R>],
    node: usize,
) -> Result<Vec<Decision<R>>, AllocError>
    requires { length values.now ≡ 256 }
    ensures { IfOk result (λ v. v.items ≡ results_of outcome.now.table values.now node) }
{
    let mut list = Vec::new(heap);
    for item in 0..16 {
        let Ok(decision) = outcome.decision(values, node, item) else {
            return Ok(list);
        };
        list.push(decision)?;
    }
    Ok(list)
}

impl<R: Reading> Desk<R> {
    // A node's row: what it had decided of each item when the run ended. A node that is faulty or none of the run's has an empty one, and before the end all have.
    pub fn row(&self, heap: Global, node: usize) -> Result<Vec<Decision<R>>, AllocError>
        ensures row { IfOk result (λ v. v.items ≡ row_of self.now node) }
        ensures room { HasRoom self.now }
    {
        match &self.stage {
            Some(Stage::Ended(outcome)) => results(heap, outcome, &self.boards.values, node),
            _ => Ok(Vec::new(heap)),
        }
    }
}
