//! Bearings as fields.
ghost use Rattle.spelling.specs.Bearings.{bearing_in, bearing_text, bearing_fits};
ghost use Rattle.std.proofs.Common.{ap};
ghost use Rattle.std.proofs.lemmas.Bool.{leb-true};
ghost use Rattle.std.specs.Option.{option_map};
ghost use Rattle.spelling.specs.Bearings;
ghost use Rattle.spelling.specs.DigitLaws.{word_back, digits_field, digits_dash};

use super::Spelled;
use super::numbers::write_number;
use super::words::parse_word;
use reading::bearing::Bearing;
use std::alloc::AllocError;

// A bearing is spelled by its hundredths of a degree, whole turns included.
impl Spelled for Bearing {
    ghost spelled = { bearing_text };

    ghost parses = { bearing_in };

    ghost spellable = { bearing_fits };

    ghost returned = { λ b fits. ap (option_map Bearings.bearing) (word_back b.hundredths (leb-true b.hundredths 65535 fits)) };

    ghost one_field = { λ b. digits_field b.hundredths };

    ghost no_dash = { λ b. digits_dash b.hundredths };

    fn parse(field: &[u8]) -> Option<Bearing> {
        parse_word(field).map(Bearing::new)
    }

    fn spell(&self, text: &mut Vec<u8>) -> Result<(), AllocError> {
        write_number(text, self.hundredths() as u64)
    }
}
