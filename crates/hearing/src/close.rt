//! The close of a step: every honest node closes on what was sent before.
ghost use Rattle.std.specs.Prelude.{◌≡◌, ◌/◌, ◌%◌, ◌<◌, ◌≤◌, true, length};
ghost use Rattle.board.specs.Tables.{written, node_at, cells_needed, marks_after};
ghost use Rattle.hearing.specs.Closes.{new_value, closed_at, value_after, values_over, node_after, table_after};
ghost use Rattle.hearing.specs.Rooms.{boards_fit, with_closed};

use super::ear::Ear;
use super::scene::Scene;
use board::{Node, Table};
use closing::steps::close_heard;
use closing::{Closed, ItemState, Step};
use coin::Coin;
use reading::Reading;

// The value that a closing leaves.
fn new_value<R: Copy>(closed: Closed<R>, old: Option<R>) -> Option<R>
    ensures { result ≡ new_value closed old }
{
    match closed {
        Closed::Polled { value } | Closed::Graded { value, .. } => value,
        Closed::Voted { .. } => old,
    }
}

// Takes in what a closing gives of an item: its bit, and whether it is decided.
fn take_closed<R: Copy>(own: &mut Node, item: usize, closed: Closed<R>)
    requires { item < 16 }
    ensures { own.new ≡ with_closed item closed own.old }
{
    match closed {
        Closed::Polled { .. } => {}
        Closed::Graded { bit, .. } => own.bits[item] = bit,
        Closed::Voted { bit, decided } => {
            own.bits[item] = bit;
            own.decided[item] = decided;
        }
    }
}

impl<'x, R: Reading, C: Coin> Scene<'x, R, C> {
    // What the close gives a node of an item.
    fn close_at(&self, node: usize, item: usize) -> Closed<R>
        requires { (node < self.now.table.now.n) × (item < self.now.table.now.m) }
        ensures { result ≡ closed_at R.Reading.meaning (C.Coin.tosses self.now.coin.now) self.now.table.now self.now.step.now self.now.values.now self.now.sent.now self.now.marks.now node item }
    {
        let state = ItemState {
            node,
            item,
            bit: self.table.bit(node, item),
            decided: self.table.is_decided(node, item),
        };
        let ear = Ear {
            scene: self,
            receiver: node,
            item,
        };
        close_heard(self.step, &state, self.coin, &ear)
    }

    // The value at place k of the values board after the close.
    fn next_value(&self, k: usize) -> Option<R>
        requires { k < cells_needed self.now.table.now }
        ensures { result ≡ value_after R.Reading.meaning (C.Coin.tosses self.now.coin.now) self.now.table.now self.now.step.now self.now.values.now self.now.sent.now self.now.marks.now (k / self.now.table.now.m) (k % self.now.table.now.m) }
    {
        let node = k / self.table.m;
        let item = k % self.table.m;
        let old = self.values[self.table.cell_place(node, item)];
        if self.table.is_faulty(node) || !self.step.phase.sends_cells() {
            return old; // a vote changes no value
        }
        new_value(self.close_at(node, item), old)
    }

    // Writes the values after the close to the scratch board.
    fn write_values(&self, scratch: &mut [Option<R>])
        requires { cells_needed self.now.table.now ≤ length scratch.old }
        ensures { scratch.new ≡ values_over R.Reading.meaning (C.Coin.tosses self.now.coin.now) self.now.table.now self.now.step.now self.now.values.now self.now.sent.now self.now.marks.now scratch.old }
    {
        let used = &mut scratch[..self.table.cells_needed()];
        for (k, cell) in used.iter_mut().enumerate() {
            *cell = self.next_value(k);
        }
    }

    // Changes the record of a node, which stood as in the table, into that after the close.
    fn close_node(&self, node: usize, own: &mut Node)
        requires within { node < self.now.table.now.n }
        requires stood { own.old ≡ node_at self.now.table.now node }
        ensures { own.new ≡ node_after R.Reading.meaning (C.Coin.tosses self.now.coin.now) self.now.table.now self.now.step.now self.now.values.now self.now.sent.now self.now.marks.now node }
    {
        if self.table.is_faulty(node) {
            return;
        }
        for item in 0..self.table.m {
            let closed = self.close_at(node, item);
            take_closed(own, item, closed);
        }
    }

    // Changes the records of the nodes, which stood as in the table, into those after the close.
    fn close_nodes(&self, nodes: &mut [Node; 16])
        requires { nodes.old ≡ self.now.table.now.nodes }
        ensures { nodes.new ≡ written self.now.table.now.n (node_after R.Reading.meaning (C.Coin.tosses self.now.coin.now) self.now.table.now self.now.step.now self.now.values.now self.now.sent.now self.now.marks.now) nodes.old }
    {
        let used = &mut nodes[..self.table.n];
        for (node, own) in used.iter_mut().enumerate() {
            self.close_node(node, own);
        }
    }
}

// Whether the four boards of a close are long enough.
pub fn boards_fit<R>(
    table: &Table,
    values: &[Option<R>],
    scratch: &[Option<R>],
    sent: &[Option<R>],
    marks: &[u8],
) -> bool
    ensures { result ≡ boards_fit table.now values.now scratch.now sent.now marks.now }
{
    let cells = table.cells_needed();
    let all = table.marks_needed();
    values.len() >= cells && scratch.len() >= cells && sent.len() >= all && marks.len() >= all
}

// Closes a step: each honest node closes each item on what was sent before the close.
pub fn close_step<R: Reading, C: Coin>(
    table: &mut Table,
    step: &Step,
    coin: &C,
    values: &mut [Option<R>],
    scratch: &mut [Option<R>],
    sent: &[Option<R>],
    marks: &mut [u8],
)
    requires { boards_fit table.old values.old scratch.old sent.now marks.old ≡ true }
    ensures table { table.new ≡ table_after R.Reading.meaning (C.Coin.tosses coin.now) table.old step.now values.old sent.now marks.old }
    ensures values { values.new ≡ values_over R.Reading.meaning (C.Coin.tosses coin.now) table.old step.now values.old sent.now marks.old values.old }
    ensures scratch { scratch.new ≡ values_over R.Reading.meaning (C.Coin.tosses coin.now) table.old step.now values.old sent.now marks.old scratch.old }
    ensures marks { marks.new ≡ marks_after table.old marks.old }
{
    let mut nodes = table.nodes;
    let scene = Scene {
        step,
        coin,
        table,
        values,
        sent,
        marks,
    };
    scene.write_values(scratch);
    scene.close_nodes(&mut nodes);
    let cells = table.cells_needed();
    values[..cells].copy_from_slice(&scratch[..cells]);
    table.clear_marks(marks);
    table.nodes = nodes;
}
