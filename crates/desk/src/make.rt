//! Making a desk.
ghost use Rattle.desk.specs.Desks.{size_refusal, Makes};
ghost use Rattle.refusal.specs.Failures.{IfEnough};

use super::stage::{Desk, Stage};
use agreement::Setup;
use play::OwnedBoards;
use reading::Reading;
use refusal::Failure;
use std::alloc::Global;

impl<R: Reading> Desk<R> {
    // A desk with a new setup of n nodes and m items, every cell none, every mark 0, and a strip of one entry, 0.
    pub fn make(heap: Global, n: usize, m: usize) -> Result<Desk<R>, Failure>
        ensures { IfEnough result (λ a. Makes n m (size_refusal n m) a) }
    {
        let OwnedBoards {
            mut values,
            scratch,
            sent,
            mut marks,
        } = OwnedBoards::new(heap)?;
        let setup = Setup::new(n, m, &mut values, &mut marks)?;
        Ok(Desk {
            stage: Some(Stage::Making(setup)),
            boards: OwnedBoards {
                values,
                scratch,
                sent,
                marks,
            },
            entries: [0; 8],
            count: 1,
        })
    }
}
