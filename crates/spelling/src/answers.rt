//! The lines that answer: a refusal, a look at a decision, a node's row of decisions.
//! A text grows part by part: `write!` would fail with an `io::Error`, and not with the allocator's error.
ghost use Rattle.std.specs.Prelude.{◌∷◌, map};
ghost use Rattle.spelling.specs.Answers.{spaced, refused_text, result_text, look_text, row_text};
ghost use Rattle.spelling.specs.Numbers.{digits};
ghost use Rattle.spelling.specs.Texts.{Wrote};

use super::Spelled;
use super::cells::write_cell;
use super::numbers::write_number;
use board::Decision;
use refusal::Refusal;
use std::alloc::AllocError;

// Adds a space and a number to a text.
fn write_next_number(text: &mut Vec<u8>, number: u64) -> Result<(), AllocError>
    ensures { Wrote result text.old.items text.new.items (32 ∷ digits number) }
{
    text.extend_from_slice(b" ")?;
    write_number(text, number)
}

// Adds the line that a refused line is answered by to a text: `LINE refused NUMBER`.
pub fn write_refused(text: &mut Vec<u8>, line: u64, refusal: Refusal) -> Result<(), AllocError>
    ensures { Wrote result text.old.items text.new.items (refused_text line refusal) }
{
    write_number(text, line)?;
    text.extend_from_slice(b" refused")?;
    write_next_number(text, refusal.number() as u64)?;
    text.extend_from_slice(b"\n")
}

// Adds a decision to a text: `open` for undecided, or the cell.
pub fn write_result<R: Spelled>(
    text: &mut Vec<u8>,
    decision: &Decision<R>,
) -> Result<(), AllocError>
    ensures { Wrote result text.old.items text.new.items (result_text R.Spelled.spelled decision.now) }
{
    match decision {
        Decision::Undecided => text.extend_from_slice(b"open"),
        Decision::Decided(cell) => write_cell(text, cell),
    }
}

// Adds a space and a decision to a text.
fn write_next_result<R: Spelled>(
    text: &mut Vec<u8>,
    decision: &Decision<R>,
) -> Result<(), AllocError>
    ensures { Wrote result text.old.items text.new.items (32 ∷ result_text R.Spelled.spelled decision.now) }
{
    text.extend_from_slice(b" ")?;
    write_result(text, decision)
}

// Adds the line that a look at a decision is answered by to a text: `LINE node item result`.
pub fn write_look<R: Spelled>(
    text: &mut Vec<u8>,
    line: u64,
    node: usize,
    item: usize,
    decision: &Decision<R>,
) -> Result<(), AllocError>
    ensures { Wrote result text.old.items text.new.items (look_text R.Spelled.spelled line node item decision.now) }
{
    write_number(text, line)?;
    write_next_number(text, node as u64)?;
    write_next_number(text, item as u64)?;
    write_next_result(text, decision)?;
    text.extend_from_slice(b"\n")
}

// Adds decisions to a text, each behind a space.
fn write_results<R: Spelled>(text: &mut Vec<u8>, results: &[Decision<R>]) -> Result<(), AllocError>
    ensures { Wrote result text.old.items text.new.items (spaced (map (result_text R.Spelled.spelled) results.now)) }
{
    for result in results {
        write_next_result(text, result)?;
    }
    Ok(())
}

// Adds the line of a node and its results to a text: `node result ...`.
pub fn write_row<R: Spelled>(
    text: &mut Vec<u8>,
    node: usize,
    results: &[Decision<R>],
) -> Result<(), AllocError>
    ensures { Wrote result text.old.items text.new.items (row_text R.Spelled.spelled node results.now) }
{
    write_number(text, node as u64)?;
    write_results(text, results)?;
    text.extend_from_slice(b"\n")
}
