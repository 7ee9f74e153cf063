//! Octets read as a message.
ghost use Rattle.std.specs.Prelude.{◌≡◌, ◌≤◌, true, length, IfOk};
ghost use Rattle.wire.specs.Letters.{takes_step};
ghost use Rattle.wire.specs.Messages.{heading, body_length, parts_of, contents_of, message_octets};
ghost use Rattle.wire.specs.Reads.{body_fault, unless_fault, read_answer, read_parts};

use crate::bits::{check_unused_bits, count_octets};
use crate::faults::{in_message, out_of_range};
use crate::items::{check_cells, stride};
use crate::message::{BitLetter, CellLetter, Letter, Message};
use reading::Reading;
use refusal::{Fault, Refusal};

// How many octets the body of so many items takes.
fn count_body<R: Reading>(letter: Letter, items: usize) -> usize
    requires { items ≤ 16 }
    ensures { result ≡ body_length R.Reading.WIDTH letter items }
{
    match letter {
        Letter::OfCells(_) => items * stride::<R>(),
        Letter::OfBits(_) => count_octets(items),
    }
}

// Checks the items that a body has, so many of them.
fn check_body<R: Reading>(letter: Letter, items: usize, body: &[u8]) -> Result<(), Fault>
    requires some { 1 ≤ items }
    requires long { length body.now ≡ body_length R.Reading.WIDTH letter items }
    ensures { result ≡ unless_fault (body_fault R.Reading.WIDTH R.Reading.reads letter items body.now) tt }
{
    match letter {
        Letter::OfCells(_) => check_cells::<R>(body, items),
        Letter::OfBits(_) => check_unused_bits(body, items),
    }
}

// The message with these parts.
fn assemble<'a>(letter: Letter, step: u16, node: u8, items: u8, body: &'a [u8]) -> Message<'a>
    requires { takes_step letter step ≡ true }
    ensures { parts_of result ≡ record { front = heading letter step node; count = items; rest = body.now } }
{
    match letter {
        Letter::OfCells(CellLetter::Poll) => Message::Poll { node, items, body },
        Letter::OfCells(CellLetter::Echo) => Message::Echo { node, items, body },
        Letter::OfBits(BitLetter::Bits) => Message::Bits {
            step,
            node,
            items,
            body,
        },
        Letter::OfBits(BitLetter::Final) => Message::Final {
            step,
            node,
            items,
            body,
        },
    }
}

// The message that the octets are, for n nodes and m items, or the first thing that is wrong with them.
pub fn read_message<'a, R: Reading>(
    octets: &'a [u8],
    n: usize,
    m: usize,
) -> Result<Message<'a>, Fault>
    ensures answer { read_parts result ≡ read_answer R.Reading.WIDTH R.Reading.reads n m octets.now }
    ensures whole { IfOk result (λ x. message_octets R.Reading.WIDTH R.Reading.octets (contents_of R.Reading.WIDTH R.Reading.reads (parts_of x)) ≡ octets.now) }
{
    if out_of_range(n) || out_of_range(m) {
        return Err(in_message(Refusal::BadSize, 0));
    }
    let [first, high, low, node, items, body @ ..] = octets else {
        return Err(in_message(Refusal::Torn, octets.len()));
    };
    let Ok(letter) = Letter::try_from(*first) else {
        return Err(in_message(Refusal::StrangeLetter, 0));
    };
    if *items as usize != m || body.len() != count_body::<R>(letter, m) {
        return Err(in_message(Refusal::Torn, octets.len()));
    }
    if *node as usize >= n {
        return Err(in_message(Refusal::NoNode, 3));
    }
    let step = u16::from_be_bytes([*high, *low]);
    if !letter.takes(step as usize) {
        return Err(in_message(Refusal::OutOfTurn, 1));
    }
    check_body::<R>(letter, m, body)?;
    Ok(assemble(letter, step, *node, *items, body))
}
