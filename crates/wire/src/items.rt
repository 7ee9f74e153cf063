//! The cells of a body, read and written.
ghost use Rattle.std.specs.Prelude.{◌≡◌, ◌+◌, ◌*◌, ◌≤◌, ◌++◌, length, drop};
ghost use Rattle.std.specs.List.{flat_map};
ghost use Rattle.wire.specs.Items.{all_zero, cell_octets, cell_of, cell_at, cells_fault};
ghost use Rattle.wire.specs.Reads.{unless_fault};

use crate::message::HEAD_LENGTH;
use reading::Reading;
use refusal::{Fault, Layer, Refusal};

// How many octets a cell takes.
pub fn stride<R: Reading>() -> usize
    ensures { result ≡ R.Reading.WIDTH + 1 }
{
    R::WIDTH + 1
}

// Whether all octets are 0.
fn is_blank(octets: &[u8]) -> bool
    ensures { result ≡ all_zero octets.now }
{
    octets.iter().all(|octet| *octet == 0)
}

// The cell that an item's octets are, or the layer that finds them strange.
pub fn read_item<R: Reading>(item: &[u8]) -> Result<Option<R>, Layer>
    requires { length item.now ≡ R.Reading.WIDTH + 1 }
    ensures { result ≡ cell_of R.Reading.reads item.now }
{
    match item {
        [0, rest @ ..] if is_blank(rest) => Ok(None),
        [1, rest @ ..] => R::read(rest).map(Some).map_err(|_| Layer::Kind),
        _ => Err(Layer::Message),
    }
}

// The cell that a body has at an item, or the layer that finds its octets strange.
pub fn read_cell<R: Reading>(body: &[u8], index: usize) -> Result<Option<R>, Layer>
    requires { (index + 1) * (R.Reading.WIDTH + 1) ≤ length body.now }
    ensures { result ≡ cell_at R.Reading.WIDTH R.Reading.reads body.now index }
{
    let stride = stride::<R>();
    let start = index * stride;
    read_item::<R>(&body[start..start + stride])
}

// Checks that each of so many items of a body is a cell.
pub fn check_cells<R: Reading>(body: &[u8], items: usize) -> Result<(), Fault>
    requires { length body.now ≡ items * (R.Reading.WIDTH + 1) }
    ensures { result ≡ unless_fault (cells_fault R.Reading.WIDTH R.Reading.reads body.now 0 items) tt }
{
    // By number: tried by `chunks_exact(..).enumerate()`, where the proof of the fault's place did not close.
    for i in 0..items {
        if let Err(layer) = read_cell::<R>(body, i) {
            return Err(Fault {
                refusal: Refusal::StrangeReading,
                layer,
                place: HEAD_LENGTH + i * stride::<R>(),
            });
        }
    }
    Ok(())
}

// Writes a cell's octets to the front of a place that has room for them.
pub fn write_cell<R: Reading>(cell: &Option<R>, out: &mut [u8])
    requires { R.Reading.WIDTH + 1 ≤ length out.old }
    ensures { out.new ≡ cell_octets R.Reading.WIDTH R.Reading.octets cell.now ++ drop (length (cell_octets R.Reading.WIDTH R.Reading.octets cell.now)) out.old }
{
    match cell {
        Some(reading) => {
            out[0] = 1;
            let _ = reading.write(&mut out[1..]);
        }
        None => out[0..stride::<R>()].fill(0),
    }
}

// Writes the octets of cells.
pub(crate) fn write_cell_octets<R: Reading>(cells: &[Option<R>], out: &mut [u8])
    requires { length out.old ≡ length cells.now * (R.Reading.WIDTH + 1) }
    ensures { out.new ≡ flat_map (cell_octets R.Reading.WIDTH R.Reading.octets) cells.now }
{
    let stride = stride::<R>();
    for (i, cell) in cells.iter().enumerate() {
        write_cell(cell, &mut out[i * stride..]);
    }
}
