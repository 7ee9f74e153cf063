//! The octets of a cell.
ghost use Rattle.std.specs.Prelude.{◌≡◌};
ghost use Rattle.lamphouse.specs.Texts.{text_octets};

use reading::Reading;

// The octets of a cell, written to the front of a place: a reading's, or none.
pub fn cell_octets<'a, R: Reading>(cell: &Option<R>, place: &'a mut [u8; 8]) -> &'a [u8]
    ensures { result.now ≡ text_octets R.Reading.octets cell.now }
{
    let Some(reading) = cell else {
        return &[];
    };
    let _ = reading.write(place);
    &place[..R::WIDTH]
}
