//! One node's closing of one item, over octets.
ghost use Rattle.std.specs.Prelude.{◌≡◌, ◌++◌, length};
ghost use Rattle.std.specs.Result.{result_map_both};
ghost use Rattle.refusal.specs.Refusals.{answered};
ghost use Rattle.reading.specs.Octets.{room, placed};
ghost use Rattle.wire.specs.Items.{cell_octets};
ghost use Rattle.controller.specs.Answers.{result_number, after};
ghost use Rattle.controller.specs.Closes.{asked, gives_cells, closed_octets, placing, given_answer, heard_answer, close_answer};
ghost use Rattle.controller.specs.Places.{put_front};

use crate::cells::read_cells;
use crate::strips::close_by_octets;
use crate::types::CloseRequest;
use closing::{Closed, ItemClose};
use reading::bearing::Bearing;
use reading::lamp::Lamp;
use reading::{Kind, Reading};
use refusal::Refusal;
use wire::{stride, write_cell};

// The closing that is asked for.
impl From<CloseRequest> for ItemClose {
    ghost from_gives = { λ a r. r ≡ asked a };

    fn from(request: CloseRequest) -> ItemClose {
        ItemClose {
            n: request.n,
            node: request.node,
            step: request.step,
            item: request.item,
            bit: request.bit,
            decided: request.decided == 1,
        }
    }
}

// Whether what was heard is given as cells: in steps 1 and 2.
fn gives_cells(request: &CloseRequest) -> bool
    ensures { result ≡ gives_cells request.now }
{
    matches!(request.step, 1 | 2)
}

// Writes a cell's octets and then others to the front of a place, if it has room for all of them.
fn write_value<R: Reading>(value: &Option<R>, more: &[u8], place: &mut [u8]) -> Result<(), Refusal>
    ensures answer { result ≡ answered (room (length (cell_octets R.Reading.WIDTH R.Reading.octets value.now ++ more.now)) place.old) tt }
    ensures after { place.new ≡ placed (length (cell_octets R.Reading.WIDTH R.Reading.octets value.now ++ more.now)) (cell_octets R.Reading.WIDTH R.Reading.octets value.now ++ more.now) place.old }
{
    let stride = stride::<R>();
    if place.len() < stride {
        return Err(Refusal::Short);
    }
    if place.len() - stride < more.len() {
        return Err(Refusal::Short);
    }
    write_cell(value, place);
    place[stride..stride + more.len()].copy_from_slice(more);
    Ok(())
}

// Writes what a closing gives to the front of a place, if it has room for it.
fn write_closed<R: Reading>(closed: &Closed<R>, place: &mut [u8]) -> Result<(), Refusal>
    ensures answer { result ≡ answered (room (length (closed_octets R.Reading.WIDTH R.Reading.octets closed.now)) place.old) tt }
    ensures after { place.new ≡ placed (length (closed_octets R.Reading.WIDTH R.Reading.octets closed.now)) (closed_octets R.Reading.WIDTH R.Reading.octets closed.now) place.old }
{
    match closed {
        Closed::Polled { value } => write_value(value, &[], place),
        Closed::Graded { value, grade, bit } => {
            write_value(value, &[*grade, u8::from(*bit)], place)
        }
        Closed::Voted { bit, decided } => {
            if place.len() < 2 {
                return Err(Refusal::Short);
            }
            place[..2].copy_from_slice(&[u8::from(*bit), u8::from(*decided)]);
            Ok(())
        }
    }
}

// Closes an item from cells in octets and from marks, with work space for 16 cells.
fn close_given<'a, R: Reading>(
    request: &'a CloseRequest,
    strip: &'a [u8],
    octets: &'a [u8],
    marks: &'a [u8],
    cells: &'a mut [Option<R>],
) -> Result<Closed<R>, Refusal>
    requires { length cells.old ≡ 16 }
    ensures { result ≡ given_answer R.Reading.WIDTH R.Reading.meaning R.Reading.reads request.now strip.now octets.now marks.now }
{
    let stride = stride::<R>();
    if strip.len() % 2 == 1 || octets.len() % stride != 0 {
        return Err(Refusal::Torn);
    }
    if request.decided > 1 {
        return Err(Refusal::StrangeReading);
    }
    let count = octets.len() / stride;
    read_cells(octets, count, cells).map_err(|_| Refusal::StrangeReading)?;
    let cells: &[Option<R>] = cells;
    close_by_octets(
        ItemClose::from(*request),
        strip,
        &cells[0..count.min(16)],
        marks,
    )
}

// Closes an item from what was heard, with work space for 16 cells.
fn close_heard<'a, R: Reading>(
    request: &'a CloseRequest,
    strip: &'a [u8],
    heard: &'a [u8],
    cells: &'a mut [Option<R>],
) -> Result<Closed<R>, Refusal>
    requires { length cells.old ≡ 16 }
    ensures { result ≡ heard_answer R.Reading.WIDTH R.Reading.meaning R.Reading.reads request.now strip.now heard.now }
{
    if gives_cells(request) {
        close_given(request, strip, heard, &[], cells)
    } else {
        close_given(request, strip, &[], heard, cells)
    }
}

// Closes an item of a kind from what was heard, and writes what the closing gives to the front of a place.
fn close_kind<'a, R: Reading>(
    request: &'a CloseRequest,
    strip: &'a [u8],
    heard: &'a [u8],
    cells: &'a mut [Option<R>],
    place: &mut [u8],
) -> Result<(), Refusal>
    requires { length cells.old ≡ 16 }
    ensures answer { result ≡ result_map_both (λ _. tt) (λ e. e) (placing R.Reading.WIDTH R.Reading.octets place.old (heard_answer R.Reading.WIDTH R.Reading.meaning R.Reading.reads request.now strip.now heard.now)) }
    ensures after { place.new ≡ after (placing R.Reading.WIDTH R.Reading.octets place.old (heard_answer R.Reading.WIDTH R.Reading.meaning R.Reading.reads request.now strip.now heard.now)) put_front place.old }
{
    let closed = close_heard(request, strip, heard, cells)?;
    write_closed(&closed, place)
}

// Closes an item of the kind that the request's letter names, and writes what the closing gives to the front of a place.
fn close_by(
    request: &CloseRequest,
    strip: &[u8],
    heard: &[u8],
    place: &mut [u8],
) -> Result<(), Refusal>
    ensures answer { result ≡ result_map_both (λ _. tt) (λ e. e) (close_answer request.now strip.now heard.now place.old) }
    ensures after { place.new ≡ after (close_answer request.now strip.now heard.now place.old) put_front place.old }
{
    // Each kind is a type of its own, and without a heap each needs work space of its own.
    match Kind::try_from(request.kind) {
        Ok(Kind::Bearings) => {
            let mut cells: [Option<Bearing>; 16] = [None; 16];
            close_kind(request, strip, heard, &mut cells, place)
        }
        Ok(Kind::Lamps) => {
            let mut cells: [Option<Lamp>; 16] = [None; 16];
            close_kind(request, strip, heard, &mut cells, place)
        }
        Err(_) => Err(Refusal::StrangeLetter),
    }
}

// Closes one item at one node, from the octets of a strip and of what was heard, and writes what it gives to the front of a place.
#[unsafe(no_mangle)]
pub extern "C" fn rilvatok_close_item(
    request: &CloseRequest,
    strip: &[u8],
    heard: &[u8],
    place: &mut [u8],
) -> u8
    ensures answer { result ≡ result_number (close_answer request.now strip.now heard.now place.old) }
    ensures after { place.new ≡ after (close_answer request.now strip.now heard.now place.old) put_front place.old }
{
    match close_by(request, strip, heard, place) {
        Ok(()) => 0,
        Err(refusal) => refusal.number(),
    }
}
