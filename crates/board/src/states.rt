//! What is kept of the nodes.
ghost use Rattle.std.specs.Prelude.{◌≤◌};

// What is kept of one node; at first it is honest, and has decided nothing.
#[derive(Clone, Copy, Default)]
pub struct Node {
    // Whether it may send anything, to each receiver something else, or nothing.
    pub faulty: bool,
    // By item: its bit (true is 1). An array of its own, since a message carries all of a node's bits as one array (`Instance::bits`).
    pub bits: [bool; 16],
    // By item: whether it has decided the item.
    pub decided: [bool; 16],
    // By receiver: whether what it sent to that receiver stays in all later steps.
    pub finals: [bool; 16],
}

// The number of nodes, the number of items, and what is kept of each node.
#[derive(Drop)]
pub struct Table {
    pub n: usize,
    pub m: usize,
    pub nodes: [Node; 16],
    ghost sizes: { (1 ≤ n) × (n ≤ 16) × (1 ≤ m) × (m ≤ 16) },
}

// What a node has decided of an item: nothing yet, or a cell.
// An `Option<Option<R>>` would hold the same: its `None` would be undecided, and its `Some(None)` decided on no reading. The names tell them apart.
#[derive(Clone, Copy, PartialEq, Eq, Debug)]
pub enum Decision<R> {
    Undecided,
    Decided(Option<R>),
}
