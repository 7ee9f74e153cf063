//! What a closing starts from, and what it gives.

// What one node sent another of an item in a step, as the boards keep it: nothing, a cell, or a bit.
#[derive(Clone, Copy, PartialEq, Eq, Debug)]
pub enum Mark {
    Nothing = 0,
    Cell = 1,
    Zero = 2,
    One = 3,
}

// The sort of a step: step 1, step 2, and of round k the steps 3k, 3k + 1 and 3k + 2.
#[derive(Clone, Copy, PartialEq, Eq, Debug)]
pub enum Phase {
    Poll,
    Echo,
    ToZero,
    ToOne,
    Toss,
}

// A step that closes: its phase, its round, and the thresholds that hold in it.
#[derive(Clone, Copy)]
pub struct Step {
    pub phase: Phase,
    pub round: usize,
    pub quorum: usize,
    pub weak_quorum: usize,
}

// How a node stands with an item: its bit (true is 1), and whether the item is decided.
#[derive(Clone, Copy)]
pub struct ItemState {
    pub node: usize,
    pub item: usize,
    pub bit: bool,
    pub decided: bool,
}

// The closing of one item at one node by itself, as a caller asks for it.
#[derive(Clone, Copy)]
pub struct ItemClose {
    pub n: usize,
    pub node: usize,
    pub step: usize,
    pub item: usize,
    // an octet, as callers of the C interface give it: one above 1 is refused after the other checks
    pub bit: u8,
    pub decided: bool,
}

// What a closing gives a node of an item.
#[derive(Clone, Copy, PartialEq, Eq, Debug)]
pub enum Closed<R> {
    // Step 1: the new value.
    Polled {
        value: Option<R>,
    },
    // Step 2: the value that is held, its grade 0 to 2, and the first bit.
    Graded {
        value: Option<R>,
        grade: u8,
        bit: bool,
    },
    // From step 3 on: the bit, and whether the item is decided.
    Voted {
        bit: bool,
        decided: bool,
    },
}
