//! Messages written as octets.
ghost use Rattle.std.specs.Prelude.{◌≡◌, ◌+◌, ◌*◌, ◌≤◌, length, OnOk};
ghost use Rattle.std.specs.Result.{result_map_both};
ghost use Rattle.wire.specs.Bits.{octets_for};
ghost use Rattle.wire.specs.Items.{cells_fault};
ghost use Rattle.wire.specs.Messages.{cells_head, bits_head, cells_message, bits_message, cells_in};
ghost use Rattle.wire.specs.Reads.{unless_fault};
ghost use Rattle.wire.specs.Writes.{write_answer, written};
ghost use Rattle.controller.specs.Answers.{fault_number, after, fault_after};
ghost use Rattle.controller.specs.Places.{put_front};
ghost use Rattle.controller.specs.Writes.{flags_fault, flag_bits, items_checks, head_with, kind_written, message_written};

use crate::cells::read_cells;
use crate::faults::tell;
use crate::types::{MessageFault, MessageHead};
use reading::bearing::Bearing;
use reading::lamp::Lamp;
use reading::{Kind, Reading};
use refusal::{Fault, Refusal};
use wire::message::HEAD_LENGTH;
use wire::write::{write_bits, write_cells};
use wire::{BitLetter, CellLetter, Head, Letter, in_message, out_of_range, stride};

// What a caller's head says, with a letter.
fn head_with<L>(letter: L, head: &MessageHead) -> Head<L>
    ensures { result ≡ head_with letter head.now }
{
    Head {
        letter,
        step: head.step,
        node: head.node,
    }
}

// Reads the bits that octets are, one for each.
fn read_flags(items: &[u8], bits: &mut [bool]) -> Result<(), Fault>
    requires { length bits.old ≡ length items.now }
    ensures answer { result ≡ unless_fault (flags_fault 0 items.now) tt }
    ensures after { OnOk result (bits.new ≡ flag_bits items.now) }
{
    for (i, item) in items.iter().enumerate() {
        if *item > 1 {
            return Err(in_message(Refusal::StrangeReading, HEAD_LENGTH + i));
        }
        bits[i] = *item == 1;
    }
    Ok(())
}

// Writes a message of cells in octets to the front of a place, with work space for 16 cells.
fn write_given_cells<R: Reading>(
    n: usize,
    head: &MessageHead,
    letter: CellLetter,
    items: &[u8],
    cells: &mut [Option<R>],
    place: &mut [u8],
) -> Result<usize, Fault>
    requires few { head.now.items ≤ 16 }
    requires space { length cells.old ≡ 16 }
    ensures answer { result ≡ items_checks (length items.now) (head.now.items * (R.Reading.WIDTH + 1)) (cells_fault R.Reading.WIDTH R.Reading.reads items.now 0 head.now.items) (write_answer (cells_head (head_with letter head.now)) n head.now.items (length (cells_in R.Reading.WIDTH R.Reading.reads items.now head.now.items)) (head.now.items * (R.Reading.WIDTH + 1)) (length place.old)) }
    ensures after { place.new ≡ written result (cells_message R.Reading.WIDTH R.Reading.octets (head_with letter head.now) (cells_in R.Reading.WIDTH R.Reading.reads items.now head.now.items)) place.old }
{
    let m = head.items;
    if items.len() != m * stride::<R>() {
        return Err(in_message(Refusal::Torn, items.len()));
    }
    read_cells(items, m, cells)?;
    let cells: &[Option<R>] = cells;
    write_cells(n, m, head_with(letter, head), &cells[0..m], place)
}

// Writes a message of bits in octets, one for each, to the front of a place.
fn write_given_bits(
    n: usize,
    head: &MessageHead,
    letter: BitLetter,
    items: &[u8],
    place: &mut [u8],
) -> Result<usize, Fault>
    requires { head.now.items ≤ 16 }
    ensures answer { result ≡ items_checks (length items.now) head.now.items (flags_fault 0 items.now) (write_answer (bits_head (head_with letter head.now)) n head.now.items (length (flag_bits items.now)) (octets_for head.now.items) (length place.old)) }
    ensures after { place.new ≡ written result (bits_message (head_with letter head.now) (flag_bits items.now)) place.old }
{
    let m = head.items;
    if items.len() != m {
        return Err(in_message(Refusal::Torn, items.len()));
    }
    let mut places = [false; 16];
    let bits: &mut [bool] = &mut places[0..m];
    read_flags(items, bits)?;
    write_bits(n, m, head_with(letter, head), bits, place)
}

// Writes a message of a kind to the front of a place, with work space for 16 cells, and says how long it is.
fn write_kind<R: Reading>(
    n: usize,
    head: &MessageHead,
    items: &[u8],
    cells: &mut [Option<R>],
    place: &mut [u8],
) -> Result<usize, Fault>
    requires { length cells.old ≡ 16 }
    ensures answer { result ≡ result_map_both length (λ f. f) (kind_written R.Reading.WIDTH R.Reading.octets R.Reading.reads n head.now items.now place.old) }
    ensures after { place.new ≡ after (kind_written R.Reading.WIDTH R.Reading.octets R.Reading.reads n head.now items.now place.old) put_front place.old }
{
    let Ok(letter) = Letter::try_from(head.letter) else {
        return Err(in_message(Refusal::StrangeLetter, 0));
    };
    if out_of_range(n) || out_of_range(head.items) {
        return Err(in_message(Refusal::BadSize, 0));
    }
    match letter {
        Letter::OfCells(letter) => write_given_cells(n, head, letter, items, cells, place),
        Letter::OfBits(letter) => write_given_bits(n, head, letter, items, place),
    }
}

// Writes a message of the kind that a letter names to the front of a place, and says how long it is.
fn write_by(
    kind: u8,
    n: usize,
    head: &MessageHead,
    items: &[u8],
    place: &mut [u8],
) -> Result<usize, Fault>
    ensures answer { result ≡ result_map_both length (λ f. f) (message_written kind n head.now items.now place.old) }
    ensures after { place.new ≡ after (message_written kind n head.now items.now place.old) put_front place.old }
{
    match Kind::try_from(kind) {
        Ok(Kind::Bearings) => {
            let mut cells: [Option<Bearing>; 16] = [None; 16];
            write_kind(n, head, items, &mut cells, place)
        }
        Ok(Kind::Lamps) => {
            let mut cells: [Option<Lamp>; 16] = [None; 16];
            write_kind(n, head, items, &mut cells, place)
        }
        Err(_) => Err(in_message(Refusal::StrangeLetter, 0)),
    }
}

// Writes the message of a head with items in octets, for n nodes, to the front of a place, and tells how long it is, or tells the fault.
#[unsafe(no_mangle)]
pub extern "C" fn rilvatok_write_message(
    kind: u8,
    n: usize,
    head: &MessageHead,
    items: &[u8],
    place: &mut [u8],
    long: &mut usize,
    fault: &mut MessageFault,
) -> u8
    ensures answer { result ≡ fault_number (message_written kind n head.now items.now place.old) }
    ensures place { place.new ≡ after (message_written kind n head.now items.now place.old) put_front place.old }
    ensures long { long.new ≡ after (message_written kind n head.now items.now place.old) (λ o _. length o) long.old }
    ensures fault { fault.new ≡ fault_after (message_written kind n head.now items.now place.old) fault.old }
{
    match write_by(kind, n, head, items, place) {
        Ok(count) => {
            *long = count;
            0
        }
        Err(found) => tell(found, fault),
    }
}
