//! Boards that are owned: on the heap, long enough for every run.
ghost use Rattle.std.specs.Prelude.{◌≡◌, replicate, IfOk, vec_len};

use reading::Reading;
use std::alloc::{AllocError, Global};

// The four boards of a run, for 16 nodes and 16 items: 256 cells, and 4096 cells and marks by sender and receiver.
#[derive(Drop)]
pub struct OwnedBoards<R> {
    pub values: Vec<Option<R>>,
    pub scratch: Vec<Option<R>>,
    pub sent: Vec<Option<R>>,
    pub marks: Vec<u8>,
    ghost cells: { (vec_len values ≡ 256) × (vec_len scratch ≡ 256) },
    ghost pairs: { (vec_len sent ≡ 4096) × (vec_len marks ≡ 4096) },
}

impl<R: Reading> OwnedBoards<R> {
    // Blank boards: every cell none, and every mark 0.
    pub fn new(heap: Global) -> Result<OwnedBoards<R>, AllocError>
        ensures values { IfOk result (λ b. b.values.items ≡ replicate 256 None) }
        ensures scratch { IfOk result (λ b. b.scratch.items ≡ replicate 256 None) }
        ensures sent { IfOk result (λ b. b.sent.items ≡ replicate 4096 None) }
        ensures marks { IfOk result (λ b. b.marks.items ≡ replicate 4096 0) }
    {
        Ok(OwnedBoards {
            values: vec![in heap; None; 256]?,
            scratch: vec![in heap; None; 256]?,
            sent: vec![in heap; None; 4096]?,
            marks: vec![in heap; 0; 4096]?,
        })
    }
}
