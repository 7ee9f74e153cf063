//! The letters of messages, and the steps in which each is sent.
ghost use Rattle.std.specs.Prelude.{◌≡◌};
ghost use Rattle.wire.specs.Letters.{letter_octet, takes_step, Lettered};

use crate::message::{BitLetter, CellLetter, Letter, NoLetter};

// The letter that an octet is.
impl TryFrom<u8> for Letter {
    type Error = NoLetter;

    ghost try_from_gives = { Lettered };

    fn try_from(octet: u8) -> Result<Letter, NoLetter> {
        match octet {
            b'P' => Ok(Letter::OfCells(CellLetter::Poll)),
            b'E' => Ok(Letter::OfCells(CellLetter::Echo)),
            b'B' => Ok(Letter::OfBits(BitLetter::Bits)),
            b'F' => Ok(Letter::OfBits(BitLetter::Final)),
            _ => Err(NoLetter),
        }
    }
}

impl Letter {
    // The octet of the letter.
    pub fn octet(self) -> u8
        ensures { result ≡ letter_octet self }
    {
        match self {
            Letter::OfCells(CellLetter::Poll) => b'P',
            Letter::OfCells(CellLetter::Echo) => b'E',
            Letter::OfBits(BitLetter::Bits) => b'B',
            Letter::OfBits(BitLetter::Final) => b'F',
        }
    }

    // Whether a message with this letter may be sent in a step.
    pub(crate) fn takes(self, step: usize) -> bool
        ensures { result ≡ takes_step self step }
    {
        match self {
            Letter::OfCells(CellLetter::Poll) => step == 1,
            Letter::OfCells(CellLetter::Echo) => step == 2,
            Letter::OfBits(_) => (3..=302).contains(&step),
        }
    }
}
