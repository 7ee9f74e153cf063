//! Octets in hexadecimal.
ghost use Rattle.std.specs.Prelude.{◌≡◌, ◌*◌, ◌<◌, ◌≤◌, true, [], ◌∷◌, length, slice_index, is_some, Some};
ghost use Rattle.lines.specs.Digits.{octet_of, octets_of, hex_octets_of, written, hex_digit, hex_digits};
ghost use Rattle.std.specs.Option.{option_map};

use crate::digits::digit;

// The octet that two hexadecimal digits write.
fn octet(digits: &[u8; 2]) -> Option<u8>
    ensures { result ≡ octet_of (slice_index digits.now 0) (slice_index digits.now 1) }
{
    let high = digit(digits[0], 16)?;
    let low = digit(digits[1], 16)?;
    Some(high * 16 + low)
}

// Whether a field is octets, two hexadecimal digits each.
fn is_octets(field: &[u8]) -> bool
    ensures { result ≡ is_some (octets_of field.now) }
{
    let (pairs, rest) = field.as_chunks::<2>();
    rest.is_empty() && pairs.iter().all(|pair| octet(pair).is_some())
}

// Writes the octets of a field, two hexadecimal digits each, to the front of `out`, and says how many.
// Nothing is written where the field has no octet, more than `out` has places, or another octet than such digits.
pub fn hex_octets(field: &[u8], out: &mut [u8]) -> Option<usize>
    ensures count { result ≡ option_map (λ os. length os) (hex_octets_of (length out.old) field.now) }
    ensures places { out.new ≡ written (hex_octets_of (length out.old) field.now) out.old }
{
    let (pairs, _) = field.as_chunks::<2>();
    if pairs.is_empty() || pairs.len() > out.len() || !is_octets(field) {
        return None;
    }
    // Each pair writes an octet, as `is_octets` has found.
    for (place, pair) in pairs.iter().enumerate() {
        out[place] = octet(pair)?;
    }
    Some(pairs.len())
}

// The hexadecimal digit of a value.
fn hex_digit(value: u8) -> u8
    requires { value < 16 }
    ensures { result ≡ hex_digit value }
{
    if value < 10 {
        b'0' + value
    } else {
        b'A' + (value - 10)
    }
}

// The two hexadecimal digits of an octet.
pub fn hex_digits(octet: u8) -> [u8; 2]
    ensures digits { result ≡ hex_digits octet }
    ensures back { octets_of result ≡ Some (octet ∷ []) }
{
    [hex_digit(octet / 16), hex_digit(octet % 16)]
}
