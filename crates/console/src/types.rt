//! The commands that lines give.
use law::{Call, SetupCall};
use reading::Kind;

// The letters that a line can begin with: N, X, I, T, O, S, B, W, C, L, Z.
#[derive(Clone, Copy, PartialEq, Eq, Debug)]
pub enum Letter {
    Make,
    Faulty,
    Propose,
    Strip,
    Open,
    Value,
    Bit,
    Final,
    Close,
    Look,
    End,
}

// A character that no line begins with.
#[derive(Clone, Copy, PartialEq, Eq, Debug)]
pub struct NoLetter;

// Where a run stands: nothing is made yet, a setup, an instance, an outcome.
#[derive(Clone, Copy, PartialEq, Eq, Debug)]
pub enum Turn {
    First,
    Setup,
    Running,
    Ended,
}

// What a line asks for.
#[derive(Clone, Copy)]
pub enum Command<R> {
    // Makes a setup of n nodes and m items.
    Make { n: usize, m: usize, kind: Kind },
    // A call on the setup.
    Prepare(SetupCall<R>),
    // Sets the strip: the first `count` of these entries.
    // A type for the two that is Copy would also have to say what stands past the count, so they stay a pair.
    Strip { entries: [u16; 8], count: usize },
    // Opens the setup.
    Open,
    // A call on the instance; a look is also made on the outcome.
    Call(Call<R>),
    // Ends the instance.
    End,
}
