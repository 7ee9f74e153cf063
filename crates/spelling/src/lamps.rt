//! Lamps as fields.
ghost use Rattle.std.specs.Prelude.{◌≡◌, true, ◌∷◌};
ghost use Rattle.spelling.specs.Lamps.{lamp_in, lamp_text, period_in};
ghost use Rattle.spelling.specs.Numbers.{digits};
ghost use Rattle.spelling.specs.Texts.{Wrote};
ghost use Rattle.spelling.specs.LampLaws.{lamp_back, lamp_field};
ghost use Rattle.std.proofs.Common.{rules};

use super::Spelled;
use super::numbers::write_number;
use super::words::parse_word;
use reading::lamp::Lamp;
use reading::period::Period;
use std::alloc::AllocError;

// The period that a number in digits writes.
fn parse_period(field: &[u8]) -> Option<Period>
    ensures { result ≡ period_in field.now }
{
    Period::new(parse_word(field)?).ok()
}

// Adds a letter and a period's tenths to a text.
fn write_period(text: &mut Vec<u8>, letter: u8, period: &Period) -> Result<(), AllocError>
    ensures { Wrote result text.old.items text.new.items (letter ∷ digits period.now.tenths) }
{
    text.push(letter)?;
    write_number(text, period.tenths() as u64)
}

// A lamp is spelled by a letter, and its period's tenths if it has one.
impl Spelled for Lamp {
    ghost spelled = { lamp_text };

    ghost parses = { lamp_in };

    ghost spellable = { λ _. true };

    ghost returned = { λ l _. lamp_back l };

    ghost one_field = { λ l. lamp_field l };

    ghost no_dash = { Prim.search rules };

    fn parse(field: &[u8]) -> Option<Lamp> {
        match field {
            b"D" => Some(Lamp::Dark),
            b"S" => Some(Lamp::Steady),
            [b'F', rest @ ..] => parse_period(rest).map(Lamp::Flashing),
            [b'T', rest @ ..] => parse_period(rest).map(Lamp::Standby),
            _ => None,
        }
    }

    fn spell(&self, text: &mut Vec<u8>) -> Result<(), AllocError> {
        match self {
            Lamp::Dark => text.extend_from_slice(b"D"),
            Lamp::Steady => text.extend_from_slice(b"S"),
            Lamp::Flashing(period) => write_period(text, b'F', period),
            Lamp::Standby(period) => write_period(text, b'T', period),
        }
    }
}
