//! Numbers in decimal and hexadecimal.
ghost use Rattle.std.specs.Prelude.{◌≡◌, ◌^◌, ◌<◌, ◌≤◌, length, IfSome};
ghost use Rattle.lines.specs.Digits.{below, digit_of, numeral_of, decimal_of, hexadecimal_of, hex_word_of};

// The value of a digit, 0 to 9 or A to F, in a base up to 16. The library's `to_digit` takes small letters too.
pub(crate) fn digit(octet: u8, base: u8) -> Option<u8>
    ensures value { result ≡ digit_of base octet }
    ensures below { IfSome result (λ d. d < base) }
{
    let value = match octet {
        b'0'..=b'9' => octet - b'0',
        b'A'..=b'F' => octet - b'A' + 10,
        _ => return None,
    };
    (value < base).then_some(value)
}

// The number that a field of `least` to `most` digits writes in a base.
fn numeral(field: &[u8], base: u8, least: usize, most: usize) -> Option<u64>
    requires based { 0 < base }
    requires fits { base ^ most ≤ 2 ^ 64 }
    ensures value { result ≡ numeral_of base least most field.now }
    ensures below { IfSome result (λ n. n < base ^ length field.now) }
{
    if !(least..=most).contains(&field.len()) {
        return None;
    }
    let mut value: u64 = 0;
    for octet in field {
        let digit = digit(*octet, base)?;
        value = value * base as u64 + digit as u64;
    }
    Some(value)
}

// The number that a field of one to five decimal digits writes.
pub fn decimal(field: &[u8]) -> Option<u32>
    ensures value { result ≡ decimal_of field.now }
    ensures below { IfSome result (λ n. n < 10 ^ 5) }
{
    numeral(field, 10, 1, 5).map(|number| number as u32)
}

// The number that a field of one to 16 hexadecimal digits writes.
pub fn hexadecimal(field: &[u8]) -> Option<u64>
    ensures value { result ≡ hexadecimal_of field.now }
    ensures below { IfSome result (λ n. n < 16 ^ length field.now) }
{
    numeral(field, 16, 1, 16)
}

// The number that a field of four hexadecimal digits writes.
pub fn hex_word(field: &[u8]) -> Option<u16>
    ensures { result ≡ hex_word_of field.now }
{
    numeral(field, 16, 4, 4).map(|number| number as u16)
}
