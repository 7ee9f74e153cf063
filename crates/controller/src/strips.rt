//! A strip in octets, and a closing under it.
ghost use Rattle.std.specs.Prelude.{◌≡◌, ◌/◌, length};
ghost use Rattle.refusal.specs.Refusals.{unless};
ghost use Rattle.coin.specs.Tosses.{strip_refusal, strip_toss};
ghost use Rattle.closing.specs.Closings.{item_answer};
ghost use Rattle.controller.specs.Strips.{entries_in, tosses_in};

use closing::item::close_item;
use closing::{Closed, ItemClose};
use coin::Strip;
use reading::Reading;
use refusal::Refusal;

// Reads the entries that octets have, two for each.
fn read_entries(octets: &[u8], entries: &mut [u16])
    requires { length entries.old ≡ length octets.now / 2 }
    ensures { entries.new ≡ entries_in octets.now }
{
    // A zip with `octets.chunks_exact(2)` was tried: its proof knows nothing of what is written.
    for (i, entry) in entries.iter_mut().enumerate() {
        *entry = u16::from_be_bytes([octets[2 * i], octets[2 * i + 1]]);
    }
}

// The closing under a strip with these entries.
fn close_by_entries<'a, R: Reading>(
    close: ItemClose,
    entries: &'a [u16],
    cells: &'a [Option<R>],
    marks: &'a [u8],
) -> Result<Closed<R>, Refusal>
    ensures { result ≡ unless (strip_refusal (length entries.now)) (item_answer R.Reading.meaning (λ _ k i. strip_toss entries.now k i) close cells.now marks.now) }
{
    let strip = Strip::new(entries)?;
    close_item(close, &strip, cells, marks)
}

// The closing under the strip that octets are.
pub(crate) fn close_by_octets<'a, R: Reading>(
    close: ItemClose,
    strip: &'a [u8],
    cells: &'a [Option<R>],
    marks: &'a [u8],
) -> Result<Closed<R>, Refusal>
    ensures { result ≡ unless (strip_refusal (length strip.now / 2)) (item_answer R.Reading.meaning (tosses_in strip.now) close cells.now marks.now) }
{
    let count = strip.len() / 2;
    if count > 1024 {
        return Err(Refusal::Short);
    }
    let mut places = [0; 1024];
    let entries: &mut [u16] = &mut places[0..count];
    read_entries(strip, entries);
    close_by_entries(close, entries, cells, marks)
}
