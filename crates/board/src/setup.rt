//! Making a table with its boards, and giving the nodes their first cells.
ghost use Rattle.std.specs.Prelude.{◌≡◌, length, slice_set};
ghost use Rattle.board.specs.Setups.{if_accepted, Makes, make_refusal, blank_values, blank_marks, propose_refusal};
ghost use Rattle.board.specs.Tables.{fits, cells_needed, cell_place};
ghost use Rattle.refusal.specs.Refusals.{answered};

use super::grid::Grid;
use super::states::{Node, Table};
use closing::Mark;
use refusal::Refusal;

impl Table {
    // A new table of n nodes and m items: every node honest, every value none and every mark 0. The surplus of the boards stays.
    pub fn new<R: Copy>(
        n: usize,
        m: usize,
        values: &mut [Option<R>],
        marks: &mut [u8],
    ) -> Result<Table, Refusal>
        ensures answer { Makes n m (make_refusal n m (length values.old) (length marks.old)) result }
        ensures values { values.new ≡ if_accepted (make_refusal n m (length values.old) (length marks.old)) (blank_values n m values.old) values.old }
        ensures marks { marks.new ≡ if_accepted (make_refusal n m (length values.old) (length marks.old)) (blank_marks n m marks.old) marks.old }
    {
        if !(1..=16).contains(&n) || !(1..=16).contains(&m) {
            return Err(Refusal::BadSize);
        }
        if values.len() < n * m || marks.len() < n * n * m {
            return Err(Refusal::Short);
        }
        let mut cells = Grid::new(values, n, m);
        cells.fill(None);
        let mut flags = Grid::new(marks, n * n, m);
        flags.fill(Mark::Nothing.octet());
        let nodes = [Node::new(); 16];
        Ok(Table { n, m, nodes })
    }

    // Gives an honest node its first cell of an item; the latest stands.
    pub fn propose<R: Copy>(
        &self,
        values: &mut [Option<R>],
        node: usize,
        item: usize,
        cell: Option<R>,
    ) -> Result<(), Refusal>
        ensures answer { result ≡ answered (propose_refusal self.now (fits (cells_needed self.now) values.old) node item) tt }
        ensures values { values.new ≡ if_accepted (propose_refusal self.now (fits (cells_needed self.now) values.old) node item) (slice_set values.old (cell_place self.now node item) cell) values.old }
    {
        self.check_pair(values.len(), node, item)?;
        let mut cells = Grid::new(values, self.n, self.m);
        cells.put(node, item, cell);
        Ok(())
    }
}
