//! An honest node's own message, written as octets.
ghost use Rattle.std.specs.Prelude.{◌≡◌, ◌+◌, ◌≤◌, length};
ghost use Rattle.board.specs.Setups.{if_accepted};
ghost use Rattle.refusal.specs.Refusals.{answered};
ghost use Rattle.relay.specs.Own.{own_letter, contents_by, own_octets, own_refusal, own_placed};
ghost use Rattle.wire.specs.Messages.{body_length, message_octets};
ghost use Rattle.wire.specs.Writes.{contents_answer, written};

use agreement::Instance;
use reading::Reading;
use refusal::{Fault, Refusal};
use wire::message::HEAD_LENGTH;
use wire::write::{write_bits, write_cells};
use wire::{BitLetter, CellLetter, Head, Letter, stride};

// The letter of what an honest node sends in a step.
fn own_letter(step: usize) -> Letter
    ensures { result ≡ own_letter step }
{
    match step {
        1 => Letter::OfCells(CellLetter::Poll),
        2 => Letter::OfCells(CellLetter::Echo),
        _ => Letter::OfBits(BitLetter::Bits),
    }
}

// How long a message of so many items is.
fn message_length<R: Reading>(letter: Letter, items: usize) -> usize
    requires { items ≤ 16 }
    ensures { result ≡ 5 + body_length R.Reading.WIDTH letter items }
{
    match letter {
        Letter::OfCells(_) => HEAD_LENGTH + items * stride::<R>(),
        Letter::OfBits(_) => HEAD_LENGTH + items.div_ceil(8),
    }
}

// Writes a node's message of these cells or of these bits, by its letter.
fn write_own<R: Reading>(
    n: usize,
    m: usize,
    head: Head<Letter>,
    cells: &[Option<R>],
    bits: &[bool],
    place: &mut [u8],
) -> Result<usize, Fault>
    ensures answer { result ≡ contents_answer R.Reading.WIDTH n m (contents_by head.letter head.step head.node cells.now bits.now) (length place.old) }
    ensures after { place.new ≡ written result (message_octets R.Reading.WIDTH R.Reading.octets (contents_by head.letter head.step head.node cells.now bits.now)) place.old }
{
    match head.letter {
        Letter::OfCells(letter) => write_cells(n, m, head.with_letter(letter), cells, place),
        Letter::OfBits(letter) => write_bits(n, m, head.with_letter(letter), bits, place),
    }
}

// Writes the message that an honest node sends in the step in force to the front of a place, and gives its length.
pub fn own_message<R: Reading>(
    instance: &Instance,
    values: &[Option<R>],
    node: usize,
    place: &mut [u8],
) -> Result<usize, Refusal>
    ensures answer { result ≡ answered (own_refusal R.Reading.WIDTH R.Reading.octets instance.now values.now node place.old) (length (own_octets R.Reading.WIDTH R.Reading.octets instance.now values.now node)) }
    ensures place { place.new ≡ if_accepted (own_refusal R.Reading.WIDTH R.Reading.octets instance.now values.now node place.old) (own_placed R.Reading.WIDTH R.Reading.octets instance.now values.now node place.old) place.old }
{
    let n = instance.nodes();
    let m = instance.items();
    let step = instance.step();
    let letter = own_letter(step);
    let long = message_length::<R>(letter, m);
    if values.len() < n * m || place.len() < long {
        return Err(Refusal::Short);
    }
    let bits = instance.bits(node)?;
    if !(1..=302).contains(&step) {
        return Err(Refusal::Over);
    }
    let head = Head { letter, step, node };
    let cells = &values[node * m..][..m];
    Ok(write_own(n, m, head, cells, &bits[..m], place)?)
}
