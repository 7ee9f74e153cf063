//! The calls of a run, and what they answer, as values.
use board::Decision;
use refusal::Refusal;

// A call on a setup.
#[derive(Clone, Copy, PartialEq, Eq, Debug)]
pub enum SetupCall<R> {
    MarkFaulty {
        node: usize,
    },
    Propose {
        node: usize,
        item: usize,
        cell: Option<R>,
    },
}

// A call on an instance. `places` is the length of the lent list.
#[derive(Clone, Copy, PartialEq, Eq, Debug)]
pub enum Call<R> {
    SendValue {
        sender: usize,
        receiver: usize,
        item: usize,
        cell: Option<R>,
    },
    SendBit {
        sender: usize,
        receiver: usize,
        item: usize,
        bit: u8,
    },
    SendFinal {
        sender: usize,
        receiver: usize,
    },
    Close,
    Decision {
        node: usize,
        item: usize,
    },
    Undecided {
        places: usize,
    },
}

// What an accepted call tells.
#[derive(Clone, Copy, PartialEq, Eq, Debug)]
pub enum Told<R> {
    // It has nothing more to say.
    Done,
    // What the node has decided of the item.
    Decision(Decision<R>),
    // How many items of honest nodes are undecided.
    Count(usize),
}

// What a call answers: what it tells, or why it was refused. A refusal alters nothing.
pub type Answer<R> = Result<Told<R>, Refusal>;
