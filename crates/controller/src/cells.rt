//! Cells in octets, read into lent places.
ghost use Rattle.std.specs.Prelude.{◌≡◌, ◌+◌, ◌*◌, length, OnOk};
ghost use Rattle.wire.specs.Items.{cells_fault};
ghost use Rattle.wire.specs.Messages.{cells_in};
ghost use Rattle.wire.specs.Reads.{unless_fault};
ghost use Rattle.controller.specs.Places.{laid};

use reading::Reading;
use refusal::{Fault, Refusal};
use wire::message::HEAD_LENGTH;
use wire::{read_cell, stride};

// Reads so many cells, each of which is checked, into the front of a place, as many as it has room for.
pub(crate) fn read_cells<R: Reading>(
    octets: &[u8],
    count: usize,
    cells: &mut [Option<R>],
) -> Result<(), Fault>
    requires { length octets.now ≡ count * (R.Reading.WIDTH + 1) }
    ensures answer { result ≡ unless_fault (cells_fault R.Reading.WIDTH R.Reading.reads octets.now 0 count) tt }
    ensures after { OnOk result (cells.new ≡ laid (cells_in R.Reading.WIDTH R.Reading.reads octets.now count) cells.old) }
{
    // By number: there may be more cells than places, and a fault tells the item's place.
    for i in 0..count {
        match read_cell::<R>(octets, i) {
            Ok(cell) => {
                if i < cells.len() {
                    cells[i] = cell;
                }
            }
            Err(layer) => return Err(Fault {
                refusal: Refusal::StrangeReading,
                layer,
                place: HEAD_LENGTH + i * stride::<R>(),
            }),
        }
    }
    Ok(())
}
