//! The fields of a line, each read as what it stands for.
ghost use Rattle.std.specs.Prelude.{◌≡◌, ℕ, List, Option};
ghost use Rattle.lamphouse.specs.Grammar.{cell_of, mark_in, flag_of, close_of};
ghost use Rattle.lines.specs.Digits.{hex_word_of};
ghost use Rattle.lines.specs.Fields.{fields};

use closing::ItemClose;
use lines::{dash, hex_octets, hex_word, number};
use reading::Reading;

// What one field of a list stands for. The console has a trait of this form too: its fields spell bits in decimal and cells in words.
pub trait Parse: Copy {
    ghost parses: { List ℕ → Option Self };

    fn parse(field: &[u8]) -> Option<Self>
        ensures { result ≡ parses field.now };
}

// A strip's entry: four hexadecimal digits.
impl Parse for u16 {
    ghost parses = { hex_word_of };

    fn parse(field: &[u8]) -> Option<u16> {
        hex_word(field)
    }
}

// A mark: one octet in hexadecimal.
impl Parse for u8 {
    ghost parses = { mark_in };

    fn parse(field: &[u8]) -> Option<u8> {
        let mut octets = [0; 1];
        let _ = hex_octets(field, &mut octets)?;
        Some(octets[0])
    }
}

// A cell: a dash for none, or a reading's octets in hexadecimal.
impl<R: Reading> Parse for Option<R> {
    ghost parses = { cell_of R.Reading.reads };

    fn parse(field: &[u8]) -> Option<Option<R>> {
        if dash(field) {
            return Some(None);
        }
        let mut octets = [0; 8];
        let count = hex_octets(field, &mut octets)?;
        R::read(&octets[..count]).ok().map(Some)
    }
}

// The flag in a field of the line: the number 0 or 1.
fn flag(number: usize) -> Option<bool>
    ensures { result ≡ flag_of number }
{
    if number > 1 { None } else { Some(number == 1) }
}

// The closing that a line asks for. A bit that does not fit an octet is above 1 all the same.
pub fn parse_close(line: &[u8]) -> Option<ItemClose>
    ensures { result ≡ close_of (fields 32 line.now) }
{
    let n = number(line, b' ', 1)?;
    let node = number(line, b' ', 2)?;
    let step = number(line, b' ', 3)?;
    let item = number(line, b' ', 4)?;
    let bit = number(line, b' ', 5)?.min(255) as u8;
    let decided = flag(number(line, b' ', 6)?)?;
    Some(ItemClose {
        n,
        node,
        step,
        item,
        bit,
        decided,
    })
}
