//! The participant.
use agreement::Instance;
use play::OwnedBoards;
use std::marker::Model;

// A run of one node: an instance in which every other node is faulty, so that what they send comes by messages alone.
// It has its boards, which suffice for 16 nodes and 16 items, and the entries of the strip that its closes bring.
#[derive(Drop)]
pub struct Participant<R> {
    pub(crate) instance: Instance,
    pub(crate) node: usize,
    pub(crate) boards: OwnedBoards<R>,
    pub(crate) entries: Vec<u16>,
}

// Clauses see its node, the instance with what stands on its boards, and the entries of its strip, of which there are 1 to 8.
impl<R> Model for Participant<R> {
    ghost use Rattle.std.specs.Prelude.{◌≤◌, vec_items, vec_len};
    ghost use Rattle.participant.specs.Held.{Held};

    ghost Value = { Held R };

    ghost view = { λ s. record { node = s.node; world = record { state = s.instance; values = vec_items s.boards.values; sent = vec_items s.boards.sent; marks = vec_items s.boards.marks }; strip = vec_items s.entries } };

    ghost invariant = { λ s. (1 ≤ vec_len s.entries) × (vec_len s.entries ≤ 8) };
}
