//! Cells as fields.
ghost use Rattle.std.specs.Prelude.{◌≡◌, true, Option};
ghost use Rattle.spelling.specs.Cells.{cell_in, cell_text, cell_spellable, Returns};
ghost use Rattle.spelling.specs.Texts.{Wrote};

use super::Spelled;
use lines::dash;
use std::alloc::AllocError;

// The cell that a field stands for: a dash for none, else a reading.
pub fn parse_cell<R: Spelled>(field: &[u8]) -> Option<Option<R>>
    ensures { result ≡ cell_in R.Spelled.parses field.now }
{
    if dash(field) {
        return Some(None);
    }
    R::parse(field).map(Some)
}

// Adds a cell's field to a text. What is added stands for the same cell.
pub fn write_cell<R: Spelled>(text: &mut Vec<u8>, cell: &Option<R>) -> Result<(), AllocError>
    ensures text { Wrote result text.old.items text.new.items (cell_text R.Spelled.spelled cell.now) }
    ensures returns { Returns R.Spelled.spelled R.Spelled.parses cell.now }
{
    match cell {
        Some(reading) => reading.spell(text),
        None => text.extend_from_slice(b"-"),
    }
}

// In every kind the text of a cell is one field and stands for that cell.
pub fn spellings_return<R: Spelled>()
    ensures { (c : Option R) → cell_spellable R.Spelled.spellable c ≡ true → Returns R.Spelled.spelled R.Spelled.parses c }
{}
