//! Numbers of 16 bits as fields.
ghost use Rattle.std.specs.Prelude.{◌≡◌};
ghost use Rattle.spelling.specs.Words.{word_in};

use lines::decimal;

// The number up to 65535 that a field of one to five digits writes.
pub(crate) fn parse_word(field: &[u8]) -> Option<u16>
    ensures { result ≡ word_in field.now }
{
    u16::try_from(decimal(field)?).ok()
}
