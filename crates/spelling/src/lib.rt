//! Readings as text: how a kind spells its readings, and how a field of a line is read.
#![tactic(auto)]

ghost use Rattle.std.specs.Prelude.{◌≡◌, ℕ, Bool, true, false, List, [], ◌∷◌, Some, Option};
ghost use Rattle.lines.specs.Fields.{fields, is_dash};
ghost use Rattle.spelling.specs.Texts.{Wrote};

use reading::Reading;
use std::alloc::AllocError;

mod answers;
mod bearings;
mod cells;
mod lamps;
mod numbers;
mod words;

pub use answers::{write_look, write_refused, write_result, write_row};
pub use cells::{parse_cell, spellings_return, write_cell};
pub use numbers::{numbers_return, write_number};

// A kind of reading whose readings are spelled as the fields of a line.
pub trait Spelled: Reading {
    // The octets that a reading is spelled as.
    ghost spelled: { Self → List ℕ };

    // The reading that a field spells, if there is one.
    ghost parses: { List ℕ → Option Self };

    // Whether a reading's numbers are within their types, as those of every reading are that code holds.
    ghost spellable: { Self → Bool };

    // The reading that a field spells.
    fn parse(field: &[u8]) -> Option<Self>
        ensures { result ≡ parses field.now };

    // Adds the reading's spelling to a text.
    fn spell(&self, text: &mut Vec<u8>) -> Result<(), AllocError>
        ensures text { Wrote result text.old.items text.new.items (spelled self.now) }
        ensures spellable { spellable self.now ≡ true };

    // What is spelled is read back.
    ghost returned: { (r : Self) → spellable r ≡ true → parses (spelled r) ≡ Some r };

    // A spelled reading is one field.
    ghost one_field: { (r : Self) → fields 32 (spelled r) ≡ spelled r ∷ [] };

    // No reading is spelled as none is.
    ghost no_dash: { (r : Self) → is_dash (spelled r) ≡ false };
}
