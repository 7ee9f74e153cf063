//! The bits of a body, read and written.
ghost use Rattle.std.specs.Prelude.{◌≡◌, ◌+◌, ◌/◌, ◌<◌, ◌≤◌, length};
ghost use Rattle.wire.specs.Bits.{octet_of, octets_for, bit_octets, bit_at, bits_fault};
ghost use Rattle.wire.specs.Reads.{unless_fault};

use crate::faults::in_message;
use crate::message::HEAD_LENGTH;
use refusal::{Fault, Refusal};

// Up to eight bits in an octet, the first one lowest.
fn pack(bits: &[bool]) -> u8
    requires { length bits.now ≤ 8 }
    ensures { result ≡ octet_of bits.now }
{
    let mut octet: u8 = 0;
    for (i, bit) in bits.iter().enumerate() {
        octet += u8::from(*bit) << i;
    }
    octet
}

// How many octets so many bits take.
pub(crate) fn count_octets(items: usize) -> usize
    ensures { result ≡ octets_for items }
{
    items.div_ceil(8)
}

// Writes the octets of bits.
pub(crate) fn write_bit_octets(bits: &[bool], out: &mut [u8])
    requires { length out.old ≡ octets_for (length bits.now) }
    ensures { out.new ≡ bit_octets bits.now }
{
    // A zip of `out.iter_mut()` and `bits.chunks(8)` was tried: its proof knows nothing of what is written.
    let mut rest = bits;
    for octet in out.iter_mut() {
        let (part, after) = rest.split_at(rest.len().min(8));
        *octet = pack(part);
        rest = after;
    }
}

// The bit that a body has at an item.
pub(crate) fn read_bit(body: &[u8], index: usize) -> bool
    requires { index / 8 < length body.now }
    ensures { result ≡ bit_at body.now index }
{
    (body[index / 8] >> (index % 8)) % 2 == 1
}

// Checks that in a body of so many bits the bits of the last octet that stand for no item are 0.
pub(crate) fn check_unused_bits(body: &[u8], items: usize) -> Result<(), Fault>
    requires some { 1 ≤ items }
    requires long { 1 ≤ length body.now }
    ensures { result ≡ unless_fault (bits_fault items body.now) tt }
{
    let used = 1 + (items - 1) % 8;
    let last = u16::from(body[body.len() - 1]);
    if last >> used == 0 {
        Ok(())
    } else {
        Err(in_message(Refusal::StrangeReading, HEAD_LENGTH + body.len() - 1))
    }
}
