//! What a node has decided of an item.
ghost use Rattle.std.specs.Prelude.{◌≡◌, ◌<◌, ◌≤◌, Ok, Err, nat_le};
ghost use Rattle.board.specs.Looks.{pair_refusal, decision_refusal, decision_of};
ghost use Rattle.board.specs.Tables.{fits, cells_needed};
ghost use Rattle.refusal.specs.Refusals.{answered};

use super::states::{Decision, Table};
use refusal::Refusal;

impl Table {
    // The checks of an honest node and an item, and of the number of places on the values board.
    pub(crate) fn check_pair(&self, places: usize, node: usize, item: usize) -> Result<(), Refusal>
        ensures answer { result ≡ answered (pair_refusal self.now (nat_le (cells_needed self.now) places) node item) tt }
        ensures within { elim result [ Ok _ ↦ (node < self.now.n) × (item < self.now.m) × (cells_needed self.now ≤ places) | Err e ↦ Unit {0} ] }
    {
        if places < self.cells_needed() {
            return Err(Refusal::Short);
        }
        if node >= self.n {
            return Err(Refusal::NoNode);
        }
        if item >= self.m {
            return Err(Refusal::NoItem);
        }
        if self.is_faulty(node) {
            return Err(Refusal::FaultyNode);
        }
        Ok(())
    }

    // What a node has decided of an item.
    pub fn decision<R: Copy>(
        &self,
        values: &[Option<R>],
        node: usize,
        item: usize,
    ) -> Result<Decision<R>, Refusal>
        ensures { result ≡ answered (decision_refusal self.now (fits (cells_needed self.now) values.now) node item) (decision_of self.now values.now node item) }
    {
        self.check_pair(values.len(), node, item)?;
        if !self.is_decided(node, item) {
            return Ok(Decision::Undecided);
        }
        if self.bit(node, item) {
            return Ok(Decision::Decided(None));
        }
        let i = self.cell_place(node, item);
        Ok(Decision::Decided(values[i]))
    }
}
