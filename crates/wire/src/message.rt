//! Messages as they are read, and what stands in front of a message that is written.
ghost use Rattle.std.specs.Prelude.{◌≡◌};
ghost use Rattle.wire.specs.Messages.{heading};

// How many octets stand before a message's body: its letter, its step in two, its node and the number of its items.
pub const HEAD_LENGTH: usize = 5;

// The letter of a message that has a cell of each item.
#[derive(Clone, Copy, PartialEq, Eq, Debug)]
pub enum CellLetter {
    Poll,
    Echo,
}

// The letter of a message that has a bit of each item.
#[derive(Clone, Copy, PartialEq, Eq, Debug)]
pub enum BitLetter {
    Bits,
    Final,
}

// The letter of a message.
#[derive(Clone, Copy, PartialEq, Eq, Debug)]
pub enum Letter {
    OfCells(CellLetter),
    OfBits(BitLetter),
}

// An octet that is no letter.
#[derive(Clone, Copy, PartialEq, Eq, Debug)]
pub struct NoLetter;

// What a message says besides its items: its letter, its step and the node that sends it.
#[derive(Clone, Copy)]
pub struct Head<L> {
    pub letter: L,
    pub step: usize,
    pub node: usize,
}

impl<L: Copy> Head<L> {
    // The same step and node with another letter.
    pub fn with_letter<M>(self, letter: M) -> Head<M>
        ensures { result ≡ heading letter self.step self.node }
    {
        Head {
            letter,
            step: self.step,
            node: self.node,
        }
    }
}

// A message as read: the node that sends it, the number of its items, and its body, a part of the octets that it was read from.
#[derive(Clone, Copy)]
pub enum Message<'a> {
    // Step 1: a cell of each item.
    Poll {
        node: u8,
        items: u8,
        body: &'a [u8],
    },
    // Step 2: a cell of each item.
    Echo {
        node: u8,
        items: u8,
        body: &'a [u8],
    },
    // A later step: a bit of each item.
    Bits {
        step: u16,
        node: u8,
        items: u8,
        body: &'a [u8],
    },
    // A later step: a bit of each item, which stands for all steps that follow.
    Final {
        step: u16,
        node: u8,
        items: u8,
        body: &'a [u8],
    },
}
