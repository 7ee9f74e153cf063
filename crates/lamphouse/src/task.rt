//! One line: what it asks for, and what it answers.
ghost use Rattle.std.specs.Prelude.{◌≡◌, ℕ, [], drop, if◌then◌else◌, Some, vec_items};
ghost use Rattle.lamphouse.specs.Grammar.{all_of, entries_of, gives_cells, cells_in, marks_in, strip_answer, fields_answer};
ghost use Rattle.lines.specs.Fields.{fields};
ghost use Rattle.lines.specs.Walk.{to_come};
ghost use Rattle.refusal.specs.Failures.{IfEnough};
ghost use Rattle.refusal.specs.declared.Refusal.TheVariants.{StrangeReading};
ghost use Rattle.std.specs.Option.{ok_or};
ghost use Rattle.std.specs.Result.{result_map_both};

use super::parse::{Parse, parse_close};
use closing::item::close_item;
use closing::{Closed, ItemClose};
use coin::Strip;
use lines::{Fields, count_fields, dash, field};
use reading::Reading;
use refusal::{Failure, Refusal};
use std::alloc::Global;

// What every field that is to come stands for. They are strange if one stands for nothing.
pub fn parse_all<T: Parse>(heap: Global, walk: Fields<'_>) -> Result<Vec<T>, Failure>
    ensures { IfEnough result (λ a. result_map_both vec_items (λ e. e) a ≡ ok_or (all_of T.Parse.parses (to_come walk.entry)) StrangeReading) }
{
    // A `try_collect` says nothing of a field that fails.
    let mut list = Vec::new(heap);
    for field in walk {
        list.push(T::parse(field).ok_or(Refusal::StrangeReading)?)?;
    }
    Ok(list)
}

// The entries of a strip.
pub fn parse_entries(heap: Global, field: &[u8]) -> Result<Vec<u16>, Failure>
    ensures { IfEnough result (λ a. result_map_both vec_items (λ e. e) a ≡ ok_or (entries_of field.now) StrangeReading) }
{
    if dash(field) {
        return Ok(Vec::new(heap));
    }
    if count_fields(field, b',') > 8 {
        return Err(Failure::Refused(Refusal::StrangeReading));
    }
    parse_all(heap, Fields::new(field, b','))
}

// A walk over the fields of a line from an index on.
pub fn fields_from(line: &[u8], index: usize) -> Fields<'_>
    ensures { to_come result ≡ drop index (fields 32 line.now) }
{
    let mut walk = Fields::new(line, b' ');
    for _k in 0..index {
        let _ = walk.next();
    }
    walk
}

// Whether what was heard is given as cells: in steps 1 and 2.
fn gives_cells(close: &ItemClose) -> bool
    ensures { result ≡ gives_cells close.now }
{
    close.step == 1 || close.step == 2
}

// What was heard, in the fields from 8 on, where it is wanted; else nothing.
fn parse_heard<T: Parse>(heap: Global, wanted: bool, line: &[u8]) -> Result<Vec<T>, Failure>
    ensures { IfEnough result (λ a. result_map_both vec_items (λ e. e) a ≡ ok_or (if wanted then all_of T.Parse.parses (drop 8 (fields 32 line.now)) else Some []) StrangeReading) }
{
    if wanted {
        parse_all(heap, fields_from(line, 8))
    } else {
        Ok(Vec::new(heap))
    }
}

// The closing under a strip with these entries.
fn close_by_strip<'a, R: Reading>(
    close: ItemClose,
    entries: &'a [u16],
    cells: &'a [Option<R>],
    marks: &'a [u8],
) -> Result<Closed<R>, Refusal>
    ensures { result ≡ strip_answer R.Reading.meaning R.Reading.reads close entries.now cells.now marks.now }
{
    let strip = Strip::new(entries)?;
    close_item(close, &strip, cells, marks)
}

// What a line of this kind answers.
pub fn answer_line<R: Reading>(heap: Global, line: &[u8]) -> Result<Closed<R>, Failure>
    ensures { IfEnough result (λ a. a ≡ fields_answer R.Reading.meaning R.Reading.reads (fields 32 line.now)) }
{
    if !(8..=24).contains(&count_fields(line, b' ')) {
        return Err(Failure::Refused(Refusal::Torn));
    }
    let close = parse_close(line).ok_or(Refusal::StrangeReading)?;
    let entries = field(line, b' ', 7).ok_or(Refusal::StrangeReading)?;
    let entries = parse_entries(heap, entries)?;
    let in_cells = gives_cells(&close);
    let cells = parse_heard::<Option<R>>(heap, in_cells, line)?;
    let marks = parse_heard::<u8>(heap, !in_cells, line)?;
    Ok(close_by_strip(close, &entries, &cells, &marks)?)
}
