//! The rows of an ended run as text.
ghost use Rattle.desk.specs.Desks.{row_of};
ghost use Rattle.spelling.specs.Texts.{Wrote};
ghost use Rattle.transcript.specs.Rows.{row_line, rows_text};

use desk::Desk;
use spelling::{Spelled, write_row};
use std::alloc::{AllocError, Global};

// Adds a node's row to a text, if it has one.
fn write_node<R: Spelled>(
    desk: &Desk<R>,
    heap: Global,
    node: usize,
    text: &mut Vec<u8>,
) -> Result<(), AllocError>
    ensures { Wrote result text.old.items text.new.items (row_line R.Spelled.spelled node (row_of desk.now node)) }
{
    let row = desk.row(heap, node)?;
    if row.is_empty() {
        return Ok(());
    }
    write_row(text, node, &row)
}

// Adds a row for each honest node to a text, from the lowest up. Before the end there is none.
pub fn write_rows<R: Spelled>(
    desk: &Desk<R>,
    heap: Global,
    text: &mut Vec<u8>,
) -> Result<(), AllocError>
    ensures { Wrote result text.old.items text.new.items (rows_text R.Spelled.spelled desk.now) }
{
    for node in 0..16 {
        write_node(desk, heap, node, text)?;
    }
    Ok(())
}
