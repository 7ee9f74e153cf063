//! The desk, and what it replies.
ghost use Rattle.std.specs.Prelude.{◌≤◌};

use agreement::{Instance, Outcome, Setup};
use board::Decision;
use play::OwnedBoards;
use std::marker::Model;

// Where a run stands.
#[derive(Drop)]
pub enum Stage {
    Making(Setup),
    Running(Instance),
    Ended(Outcome),
}

// A run with its boards, and with the strip that its closes bring: the first `count` entries. It has a stage, except while that is moved on.
#[derive(Drop)]
pub struct Desk<R> {
    pub(crate) stage: Option<Stage>,
    pub(crate) boards: OwnedBoards<R>,
    // An array with a count beside it, as in the command: taking a strip must not want memory.
    pub(crate) entries: [u16; 8],
    pub(crate) count: usize,
}

impl<R> Model for Desk<R> {
    ghost use Rattle.desk.specs.Views.{Held, view_of, IsDesk};

    ghost Value = { Held R };

    ghost view = { view_of };

    ghost invariant = { IsDesk };
}

// What a desk replies to a command that it accepts.
#[derive(Clone, Copy, PartialEq, Eq, Debug)]
pub enum Reply<R> {
    // It has nothing more to say.
    Done,
    // What a node has decided of an item.
    Decision {
        node: usize,
        item: usize,
        decision: Decision<R>,
    },
    // The instance has ended: a row is due for each honest node.
    Rows,
}
