//! What a message says.
ghost use Rattle.std.specs.Prelude.{◌≡◌, ◌<◌};
ghost use Rattle.wire.specs.Messages.{parts_of};
ghost use Rattle.wire.specs.Looks.{cell_answer, bit_answer};

use crate::bits::read_bit;
use crate::items::{read_cell, stride};
use crate::message::{BitLetter, CellLetter, Letter, Message};
use reading::Reading;
use refusal::Refusal;

// An enum cannot have a model, so the contracts name the parts of a message by `parts_of`.
impl<'a> Message<'a> {
    // The message's letter.
    pub fn letter(&self) -> Letter
        ensures { result ≡ (parts_of self.now).front.letter }
    {
        match self {
            Message::Poll { .. } => Letter::OfCells(CellLetter::Poll),
            Message::Echo { .. } => Letter::OfCells(CellLetter::Echo),
            Message::Bits { .. } => Letter::OfBits(BitLetter::Bits),
            Message::Final { .. } => Letter::OfBits(BitLetter::Final),
        }
    }

    // The step in which it is sent.
    pub fn step(&self) -> usize
        ensures { result ≡ (parts_of self.now).front.step }
    {
        match self {
            Message::Poll { .. } => 1,
            Message::Echo { .. } => 2,
            Message::Bits { step, .. } | Message::Final { step, .. } => *step as usize,
        }
    }

    // The node that sends it.
    pub fn node(&self) -> usize
        ensures { result ≡ (parts_of self.now).front.node }
    {
        match self {
            Message::Poll { node, .. } | Message::Echo { node, .. } => *node as usize,
            Message::Bits { node, .. } | Message::Final { node, .. } => *node as usize,
        }
    }

    // How many items it has.
    pub fn items(&self) -> usize
        ensures value { result ≡ (parts_of self.now).count }
        ensures small { result < 256 }
    {
        match self {
            Message::Poll { items, .. } | Message::Echo { items, .. } => *items as usize,
            Message::Bits { items, .. } | Message::Final { items, .. } => *items as usize,
        }
    }

    // The cell of an item. Refused are an item that the message has not, a message of bits, and octets that are no cell of this kind.
    pub fn cell<R: Reading>(&self, item: usize) -> Result<Option<R>, Refusal>
        ensures { result ≡ cell_answer R.Reading.WIDTH R.Reading.reads (parts_of self.now) item }
    {
        if item >= self.items() {
            return Err(Refusal::NoItem);
        }
        let body = match self {
            Message::Poll { body, .. } | Message::Echo { body, .. } => body,
            Message::Bits { .. } | Message::Final { .. } => return Err(Refusal::WrongPhase),
        };
        if body.len() < (item + 1) * stride::<R>() {
            return Err(Refusal::StrangeReading);
        }
        read_cell::<R>(body, item).map_err(|_| Refusal::StrangeReading)
    }

    // The bit of an item. Refused are an item that the message has not, a message of cells, and a body that ends before the bit.
    pub fn bit(&self, item: usize) -> Result<bool, Refusal>
        ensures { result ≡ bit_answer (parts_of self.now) item }
    {
        if item >= self.items() {
            return Err(Refusal::NoItem);
        }
        let body = match self {
            Message::Bits { body, .. } | Message::Final { body, .. } => body,
            Message::Poll { .. } | Message::Echo { .. } => return Err(Refusal::WrongPhase),
        };
        if body.len() <= item / 8 {
            return Err(Refusal::StrangeReading);
        }
        Ok(read_bit(body, item))
    }
}
