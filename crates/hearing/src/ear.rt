//! What one honest node hears of one item in a step.
ghost use Rattle.std.specs.Prelude.{◌≡◌, ◌<◌};
ghost use Rattle.hearing.specs.Closes.{heard_cell, heard_cells, heard_mark, heard_marks};

use super::scene::Scene;
use closing::Mark;
use closing::hearing::Hearing;

// An honest receiver's ear for one item: what the honest nodes send, and what the faulty ones sent it.
#[derive(Drop)]
pub(crate) struct Ear<'e, 'x, R, C> {
    pub(crate) scene: &'e Scene<'x, R, C>,
    pub(crate) receiver: usize,
    pub(crate) item: usize,
    ghost within: { (receiver < scene.now.table.now.n) × (item < scene.now.table.now.m) },
}

impl<'e, 'x, R: Copy, C> Ear<'e, 'x, R, C> {
    // The cell that is heard from a node.
    fn heard_cell(&self, node: usize) -> Option<R>
        requires { node < self.now.scene.now.table.now.n }
        ensures { result ≡ heard_cell self.now.scene.now.table.now self.now.scene.now.values.now self.now.scene.now.sent.now self.now.scene.now.marks.now self.now.receiver self.now.item node }
    {
        let scene = self.scene;
        let table = scene.table;
        if table.is_faulty(node) {
            let i = table.mark_place(node, self.receiver, self.item);
            let sent = scene.sent;
            if Mark::from(scene.marks[i]) == Mark::Cell {
                sent[i]
            } else {
                None
            }
        } else {
            let values = scene.values;
            values[table.cell_place(node, self.item)]
        }
    }

    // The mark that is heard from a node.
    fn heard_mark(&self, node: usize) -> u8
        requires { node < self.now.scene.now.table.now.n }
        ensures { result ≡ heard_mark self.now.scene.now.table.now self.now.scene.now.marks.now self.now.receiver self.now.item node }
    {
        let scene = self.scene;
        let table = scene.table;
        if table.is_faulty(node) {
            scene.marks[table.mark_place(node, self.receiver, self.item)]
        } else {
            Mark::of_bit(table.bit(node, self.item)).octet()
        }
    }
}

impl<'e, 'x, R: Copy, C> Hearing<R> for Ear<'e, 'x, R, C> {
    ghost cells = { λ e. heard_cells e.scene.now.table.now e.scene.now.values.now e.scene.now.sent.now e.scene.now.marks.now e.receiver e.item };

    ghost marks = { λ e. heard_marks e.scene.now.table.now e.scene.now.marks.now e.receiver e.item };

    fn cell_count(&self) -> usize {
        self.scene.table.n
    }

    fn cell(&self, node: usize) -> Option<R> {
        if node < self.scene.table.n {
            self.heard_cell(node)
        } else {
            None
        }
    }

    fn mark_count(&self) -> usize {
        self.scene.table.n
    }

    fn mark(&self, node: usize) -> u8 {
        if node < self.scene.table.n {
            self.heard_mark(node)
        } else {
            Mark::Nothing.octet()
        }
    }
}
