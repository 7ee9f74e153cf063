// Octets that are put into a lent place.
ghost use Rattle.std.specs.Prelude.{◌≡◌, length};
ghost use Rattle.refusal.specs.Refusals.{answered};
ghost use Rattle.reading.specs.Octets.{room, placed};

use refusal::Refusal;

// Puts the octets at the front of a place that has room for them.
pub fn put(octets: &[u8], out: &mut [u8]) -> Result<(), Refusal>
    ensures answer { result ≡ answered (room (length octets.now) out.old) tt }
    ensures after { out.new ≡ placed (length octets.now) octets.now out.old }
{
    if out.len() < octets.len() {
        return Err(Refusal::Short);
    }
    out[0..octets.len()].copy_from_slice(octets);
    Ok(())
}
