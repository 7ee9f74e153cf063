//! The letters of lines, and how many fields follow each.
ghost use Rattle.std.specs.Prelude.{◌≡◌};
ghost use Rattle.console.specs.Letters.{Lettered, letter_in, takes_fields};
ghost use Rattle.lines.specs.Fields.{fields};

use crate::types::{Letter, NoLetter};

// The letter that a character is.
impl TryFrom<char> for Letter {
    type Error = NoLetter;

    ghost try_from_gives = { Lettered };

    fn try_from(character: char) -> Result<Letter, NoLetter> {
        match character {
            'N' => Ok(Letter::Make),
            'X' => Ok(Letter::Faulty),
            'I' => Ok(Letter::Propose),
            'T' => Ok(Letter::Strip),
            'O' => Ok(Letter::Open),
            'S' => Ok(Letter::Value),
            'B' => Ok(Letter::Bit),
            'W' => Ok(Letter::Final),
            'C' => Ok(Letter::Close),
            'L' => Ok(Letter::Look),
            'Z' => Ok(Letter::End),
            _ => Err(NoLetter),
        }
    }
}

// The letter that a line's first field is, if that is one octet.
pub fn letter_of(line: &[u8]) -> Option<Letter>
    ensures { result ≡ letter_in (fields 32 line.now) }
{
    match line {
        [first] | [first, b' ', ..] => Letter::try_from(*first as char).ok(),
        _ => None,
    }
}

impl Letter {
    // Whether a letter's line has so many fields after the letter.
    pub fn takes_fields(self, count: usize) -> bool
        ensures { result ≡ takes_fields self count }
    {
        match self {
            Letter::Open | Letter::Close | Letter::End => count == 0,
            Letter::Faulty => count == 1,
            Letter::Final | Letter::Look => count == 2,
            Letter::Make | Letter::Propose => count == 3,
            Letter::Value | Letter::Bit => count == 4,
            Letter::Strip => (1..=8).contains(&count),
        }
    }
}
