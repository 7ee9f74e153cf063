//! What one node heard of one item.
ghost use Rattle.std.specs.Prelude.{◌≡◌, ℕ, List, length, None, Option, slice_index, slice_index_or};

use super::types::Mark;

// What one node heard of one item, from node 0 on: a cell from each node (steps 1 and 2), or a mark (from step 3 on).
pub trait Hearing<R> {
    ghost cells: { Self → List (Option R) };

    ghost marks: { Self → List ℕ };

    // From how many nodes there is a cell.
    fn cell_count(&self) -> usize
        ensures { result ≡ length (cells self.now) };

    // The cell of a node, and none past the last.
    fn cell(&self, node: usize) -> Option<R>
        ensures { result ≡ slice_index_or (cells self.now) node None };

    // From how many nodes there is a mark.
    fn mark_count(&self) -> usize
        ensures { result ≡ length (marks self.now) };

    // The mark of a node, and nothing past the last. It is an octet, since callers in C lend marks as octets.
    fn mark(&self, node: usize) -> u8
        ensures { result ≡ slice_index (marks self.now) node };
}

// What was heard, in two lent slices.
#[derive(Drop)]
pub struct Heard<'a, R> {
    pub cells: &'a [Option<R>],
    pub marks: &'a [u8],
}

impl<'a, R: Copy> Hearing<R> for Heard<'a, R> {
    ghost cells = { λ h. h.cells.now };

    ghost marks = { λ h. h.marks.now };

    fn cell_count(&self) -> usize {
        self.cells.len()
    }

    fn cell(&self, node: usize) -> Option<R> {
        self.cells.get(node).copied().flatten()
    }

    fn mark_count(&self) -> usize {
        self.marks.len()
    }

    fn mark(&self, node: usize) -> u8 {
        self.marks
            .get(node)
            .copied()
            .unwrap_or(Mark::Nothing.octet())
    }
}
