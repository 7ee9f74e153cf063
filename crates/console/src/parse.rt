//! What a line asks for.
ghost use Rattle.std.specs.Prelude.{◌≡◌};
ghost use Rattle.console.specs.Grammar.{line_fault, parsed};

use crate::commands::parse_command;
use crate::letters::letter_of;
use crate::types::{Command, Turn};
use lines::count_fields;
use refusal::{Fault, Layer, Refusal};
use spelling::Spelled;

// The longest line that is taken.
const LIMIT: usize = 60;

// A fault that the line has at a place.
fn line_fault(refusal: Refusal, place: usize) -> Fault
    ensures { result ≡ line_fault refusal place }
{
    Fault {
        refusal,
        layer: Layer::Line,
        place,
    }
}

// What a line asks for, or the first fault that is found in it.
pub fn parse_line<R: Spelled>(line: &[u8], turn: Turn) -> Result<Command<R>, Fault>
    ensures { result ≡ parsed R.Spelled.parses turn line.now }
{
    if line.is_empty() || line.len() > LIMIT {
        return Err(line_fault(Refusal::Torn, line.len()));
    }
    let letter = letter_of(line).ok_or(line_fault(Refusal::StrangeLetter, 0))?;
    let in_turn = turn.takes(letter);
    if turn == Turn::First && !in_turn {
        return Err(line_fault(Refusal::OutOfTurn, 0));
    }
    let count = count_fields(line, b' ') - 1;
    if !letter.takes_fields(count) {
        return Err(line_fault(Refusal::Torn, line.len()));
    }
    let command = parse_command(line, letter, count)?;
    if !in_turn {
        return Err(line_fault(Refusal::OutOfTurn, 0));
    }
    Ok(command)
}
