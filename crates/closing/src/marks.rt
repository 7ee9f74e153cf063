//! Marks: what a node sent another of an item in a step, as the boards keep it, an octet each.
ghost use Rattle.std.specs.Prelude.{◌≡◌};
ghost use Rattle.closing.specs.Counting.{mark_of};
ghost use Rattle.closing.specs.Marks.{bit_mark, mark_named, octet_of};

use super::types::Mark;

// The mark that an octet names. An octet that is no mark names nothing.
impl From<u8> for Mark {
    ghost from_gives = { λ octet mark. mark ≡ mark_named octet };

    fn from(octet: u8) -> Mark {
        match octet {
            1 => Mark::Cell,
            2 => Mark::Zero,
            3 => Mark::One,
            _ => Mark::Nothing,
        }
    }
}

impl Mark {
    // The mark of a bit that was sent.
    pub fn of_bit(bit: bool) -> Mark
        ensures mark { result ≡ bit_mark bit }
        ensures octet { octet_of result ≡ mark_of bit }
    {
        if bit { Mark::One } else { Mark::Zero }
    }

    // The octet that a board keeps for the mark.
    pub fn octet(self) -> u8
        ensures is { result ≡ octet_of self }
        ensures back { mark_named result ≡ self }
    {
        self as u8
    }
}
