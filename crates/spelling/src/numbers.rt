//! Numbers in decimal.
ghost use Rattle.std.specs.Prelude.{◌≡◌, ℕ, ◌^◌, ◌<◌, Some};
ghost use Rattle.lines.specs.Digits.{decimal_of};
ghost use Rattle.spelling.specs.Numbers.{digits};
ghost use Rattle.spelling.specs.Texts.{Wrote};

use std::alloc::AllocError;

// Adds the decimal digits of a number to a text.
pub fn write_number(text: &mut Vec<u8>, number: u64) -> Result<(), AllocError>
    ensures { Wrote result text.old.items text.new.items (digits number) }
{
    // The last digit is written first: a call for each digit, front to back, takes half as many instructions again.
    let mut octets = [0; 20];
    let mut place = 19;
    let mut rest = number;
    while rest >= 10 {
        octets[place] = b'0' + (rest % 10) as u8;
        place -= 1;
        rest /= 10;
    }
    octets[place] = b'0' + rest as u8;
    text.extend_from_slice(&octets[place..20])
}

// A number of up to five digits is read as it is written.
pub fn numbers_return()
    ensures { (n : ℕ) → n < 10 ^ 5 → decimal_of (digits n) ≡ Some n }
{}
