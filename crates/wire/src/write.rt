//! Messages written as octets.
ghost use Rattle.std.specs.Prelude.{◌≡◌, ◌+◌, ◌*◌, ◌^◌, ◌<◌, ◌≤◌, ◌++◌, length, drop, is_ok, if◌then◌else◌, Ok, OnOk};
ghost use Rattle.wire.specs.Bits.{octets_for};
ghost use Rattle.wire.specs.Messages.{cells_head, bits_head, head_octets, cells_message, bits_message};
ghost use Rattle.wire.specs.Writes.{head_checks, room_check, write_answer, written};

use crate::bits::{count_octets, write_bit_octets};
use crate::faults::{in_message, out_of_range};
use crate::items::{stride, write_cell_octets};
use crate::message::{BitLetter, CellLetter, HEAD_LENGTH, Head, Letter};
use reading::Reading;
use refusal::{Fault, Refusal};

// Checks a head for n nodes and m items, and the number of cells or bits that are given with it.
fn check_head(head: &Head<Letter>, n: usize, m: usize, given: usize) -> Result<(), Fault>
    ensures answer { result ≡ head_checks head.now n m given (Ok tt) }
    ensures small { OnOk result ((m ≤ 16) × (given ≡ m) × (head.now.step < 2 ^ 16) × (head.now.node < 16)) }
{
    if out_of_range(n) || out_of_range(m) {
        return Err(in_message(Refusal::BadSize, 0));
    }
    if given != m {
        return Err(in_message(Refusal::Torn, given));
    }
    if head.node >= n {
        return Err(in_message(Refusal::NoNode, 3));
    }
    if !head.letter.takes(head.step) {
        return Err(in_message(Refusal::OutOfTurn, 1));
    }
    Ok(())
}

// Writes the head of a message of so many octets to the front of a place that has room for all of them.
fn write_head(head: &Head<Letter>, m: usize, long: usize, out: &mut [u8]) -> Result<usize, Fault>
    requires { (5 ≤ long) × ((m ≤ 16) × ((head.now.step < 2 ^ 16) × (head.now.node < 16))) }
    ensures answer { result ≡ room_check long (length out.old) }
    ensures after { out.new ≡ (if is_ok result then head_octets head.now m ++ drop 5 out.old else out.old) }
{
    if out.len() < long {
        return Err(in_message(Refusal::Short, 0));
    }
    let [high, low] = (head.step as u16).to_be_bytes();
    out[0..HEAD_LENGTH].copy_from_slice(&[
        head.letter.octet(),
        high,
        low,
        head.node as u8,
        m as u8,
    ]);
    Ok(long)
}

// Writes the message of this head with a cell of each of m items to the front of a place, for n nodes, and says how long it is.
// Where it is refused the place is left alone.
pub fn write_cells<R: Reading>(
    n: usize,
    m: usize,
    head: Head<CellLetter>,
    cells: &[Option<R>],
    out: &mut [u8],
) -> Result<usize, Fault>
    ensures answer { result ≡ write_answer (cells_head head) n m (length cells.now) (m * (R.Reading.WIDTH + 1)) (length out.old) }
    ensures after { out.new ≡ written result (cells_message R.Reading.WIDTH R.Reading.octets head cells.now) out.old }
{
    let head = head.with_letter(Letter::OfCells(head.letter));
    check_head(&head, n, m, cells.len())?;
    let long = write_head(&head, m, HEAD_LENGTH + m * stride::<R>(), out)?;
    write_cell_octets(cells, &mut out[HEAD_LENGTH..long]);
    Ok(long)
}

// The same with a bit of each of m items. A trait of bodies would say no more plainly what differs: the size and the octets of the body.
pub fn write_bits(
    n: usize,
    m: usize,
    head: Head<BitLetter>,
    bits: &[bool],
    out: &mut [u8],
) -> Result<usize, Fault>
    ensures answer { result ≡ write_answer (bits_head head) n m (length bits.now) (octets_for m) (length out.old) }
    ensures after { out.new ≡ written result (bits_message head bits.now) out.old }
{
    let head = head.with_letter(Letter::OfBits(head.letter));
    check_head(&head, n, m, bits.len())?;
    let long = write_head(&head, m, HEAD_LENGTH + count_octets(m), out)?;
    write_bit_octets(bits, &mut out[HEAD_LENGTH..long]);
    Ok(long)
}
