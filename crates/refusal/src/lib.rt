//! The refusals: one number and one word for each way in which a call says no.
#![tactic(auto)]

ghost use Rattle.std.specs.Prelude.{◌≡◌, Some};
ghost use Rattle.refusal.specs.Refusals.{number, word, layer_number, Numbered};
ghost use Rattle.refusal.specs.Failures.{failure_text};
ghost use Rattle.refusal.specs.declared.Failure.TheVariants.{Refused, OutOfMemory};

use std::alloc::{AllocError, AllocFailed};
use std::error::Error;
use std::fmt;

// Why a call was refused. docs/REFUSALS.md says when each is given.
#[derive(Clone, Copy, PartialEq, Eq, Debug)]
pub enum Refusal {
    BadSize = 1,
    Short = 2,
    NoNode = 3,
    NoItem = 4,
    HonestSender = 5,
    FaultyNode = 6,
    WrongPhase = 7,
    Repeated = 8,
    Over = 9,
    Torn = 10,
    StrangeLetter = 11,
    StrangeReading = 12,
    OutOfTurn = 13,
}

// A number that no refusal has.
#[derive(Clone, Copy, PartialEq, Eq, Debug)]
pub struct NoRefusal;

// What finds a fault in octets that came in: the kind of reading, the message or the line.
#[derive(Clone, Copy, PartialEq, Eq, Debug)]
pub enum Layer {
    Kind = 1,
    Message = 2,
    Line = 3,
}

// A refusal of octets that came in: the layer that found it, and the place of the octet, counted from 0.
#[derive(Clone, Copy, PartialEq, Eq, Debug)]
pub struct Fault {
    pub refusal: Refusal,
    pub layer: Layer,
    pub place: usize,
}

// Why a call that takes memory gives nothing: it was refused, or memory was wanting.
#[derive(Clone, Copy, PartialEq, Eq, Debug)]
pub enum Failure {
    Refused(Refusal),
    OutOfMemory,
}

impl Refusal {
    // The refusal's number in the table of refusals.
    pub fn number(self) -> u8
        ensures { result ≡ number self }
    {
        self as u8
    }

    // The refusal's word in the table of refusals.
    pub fn word(self) -> &'static str
        ensures { result.now ≡ word self }
    {
        match self {
            Refusal::BadSize => "no roll",
            Refusal::Short => "short",
            Refusal::NoNode => "no seat",
            Refusal::NoItem => "no item",
            Refusal::HonestSender => "sound sender",
            Refusal::FaultyNode => "stray seat",
            Refusal::WrongPhase => "wrong side",
            Refusal::Repeated => "said already",
            Refusal::Over => "over",
            Refusal::Torn => "torn",
            Refusal::StrangeLetter => "strange letter",
            Refusal::StrangeReading => "strange reading",
            Refusal::OutOfTurn => "out of turn",
        }
    }
}

// The refusal of a number in the table of refusals.
impl TryFrom<u8> for Refusal {
    type Error = NoRefusal;

    ghost try_from_gives = { Numbered };

    fn try_from(number: u8) -> Result<Refusal, NoRefusal> {
        match number {
            1 => Ok(Refusal::BadSize),
            2 => Ok(Refusal::Short),
            3 => Ok(Refusal::NoNode),
            4 => Ok(Refusal::NoItem),
            5 => Ok(Refusal::HonestSender),
            6 => Ok(Refusal::FaultyNode),
            7 => Ok(Refusal::WrongPhase),
            8 => Ok(Refusal::Repeated),
            9 => Ok(Refusal::Over),
            10 => Ok(Refusal::Torn),
            11 => Ok(Refusal::StrangeLetter),
            12 => Ok(Refusal::StrangeReading),
            13 => Ok(Refusal::OutOfTurn),
            _ => Err(NoRefusal),
        }
    }
}

impl Layer {
    // The layer's number in a fault as it is told.
    pub fn number(self) -> u8
        ensures { result ≡ layer_number self }
    {
        self as u8
    }
}

// Writes the refusal's word.
impl fmt::Display for Refusal {
    ghost output = { λ x. Some (word x) };

    fn fmt<W: fmt::Write>(&self, f: &mut fmt::Formatter<W>) -> fmt::Result {
        f.write_str(self.word())
    }
}

// A program may pass a refusal on as its error.
impl Error for Refusal {}

// A fault is refused by its refusal.
impl From<Fault> for Refusal {
    ghost from_gives = { λ fault refusal. refusal ≡ fault.refusal };

    fn from(fault: Fault) -> Refusal {
        fault.refusal
    }
}

// A refusal is a failure.
impl From<Refusal> for Failure {
    ghost from_gives = { λ refusal failure. failure ≡ Refused refusal };

    fn from(refusal: Refusal) -> Failure {
        Failure::Refused(refusal)
    }
}

// A fault is the failure of its refusal.
impl From<Fault> for Failure {
    ghost from_gives = { λ fault failure. failure ≡ Refused fault.refusal };

    fn from(fault: Fault) -> Failure {
        Failure::Refused(fault.refusal)
    }
}

// An allocation that failed is want of memory.
impl From<AllocError> for Failure {
    ghost from_gives = { λ _ failure. failure ≡ OutOfMemory };

    fn from(_error: AllocError) -> Failure {
        Failure::OutOfMemory
    }
}

// So is a value that found no place; it is dropped.
impl<T: Drop> From<AllocFailed<T>> for Failure {
    ghost from_gives = { λ _ failure. failure ≡ OutOfMemory };

    fn from(_failed: AllocFailed<T>) -> Failure {
        Failure::OutOfMemory
    }
}

// Writes the refusal's word, or that memory was wanting.
impl fmt::Display for Failure {
    ghost output = { λ x. Some (failure_text x) };

    fn fmt<W: fmt::Write>(&self, f: &mut fmt::Formatter<W>) -> fmt::Result {
        match self {
            Failure::Refused(why) => f.write_str(why.word()),
            Failure::OutOfMemory => f.write_str("out of memory"),
        }
    }
}

// A program may pass a failure on as its error.
impl Error for Failure {}
