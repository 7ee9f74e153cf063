//! What a close goes by: the step, the coin, and the table and the boards as they stood before it.
ghost use Rattle.std.specs.Prelude.{◌≤◌, length};
ghost use Rattle.board.specs.Tables.{cells_needed, marks_needed};

use board::Table;
use closing::Step;

// The step, the coin, and the table with the lent boards that a close reads, which are long enough for it.
#[derive(Drop)]
pub(crate) struct Scene<'x, R, C> {
    pub(crate) step: &'x Step,
    pub(crate) coin: &'x C,
    pub(crate) table: &'x Table,
    pub(crate) values: &'x [Option<R>],
    pub(crate) sent: &'x [Option<R>],
    pub(crate) marks: &'x [u8],
    ghost for_values: { cells_needed table.now ≤ length values.now },
    ghost for_sent: { marks_needed table.now ≤ length sent.now },
    ghost for_marks: { marks_needed table.now ≤ length marks.now },
}
