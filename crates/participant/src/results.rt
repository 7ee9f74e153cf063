//! What a participant has decided.
ghost use Rattle.std.specs.Prelude.{◌≡◌, IfOk, vec_items};
ghost use Rattle.participant.specs.Held.{HasRoom};
ghost use Rattle.participant.specs.Results.{decided_cell, results_of};
ghost use Rattle.std.specs.Option.{option_map};

use super::state::Participant;
use board::Decision;
use reading::Reading;
use refusal::Refusal;
use std::alloc::{AllocError, Global};

// The cell that an answer says was decided, if one was.
fn decided_cell<R: Copy>(answer: Result<Decision<R>, Refusal>) -> Option<Option<R>>
    ensures { result ≡ decided_cell answer }
{
    match answer {
        Ok(Decision::Decided(cell)) => Some(cell),
        Ok(Decision::Undecided) => None,
        Err(_) => None,
    }
}

impl<R: Reading> Participant<R> {
    // What the node has decided of each item, once it has decided all.
    pub fn results(&self, heap: Global) -> Result<Option<Vec<Option<R>>>, AllocError>
        ensures results { IfOk result (λ o. option_map vec_items o ≡ results_of self.now) }
        ensures room { HasRoom self.now }
    {
        let mut list = Vec::new(heap);
        for item in 0..self.instance.items() {
            let Some(cell) = decided_cell(self.decision(item)) else {
                return Ok(None);
            };
            list.push(cell)?;
        }
        Ok(Some(list))
    }
}
