//! Making a setup, its calls, and opening it.
ghost use Rattle.std.specs.Prelude.{◌≡◌, length, slice_set};
ghost use Rattle.agreement.specs.Setups.{Makes, marked, mark_faulty_refusal, opened};
ghost use Rattle.board.specs.Setups.{if_accepted, make_refusal, blank_values, blank_marks, propose_refusal};
ghost use Rattle.board.specs.Tables.{fits, with_node, cells_needed, cell_place};
ghost use Rattle.refusal.specs.Refusals.{answered};

use super::states::{Instance, Setup};
use board::Table;
use closing::Phase;
use refusal::Refusal;

impl Setup {
    // A new setup of n nodes and m items: every node honest, every value none and every mark 0. The surplus of the boards stays.
    pub fn new<R: Copy>(
        n: usize,
        m: usize,
        values: &mut [Option<R>],
        marks: &mut [u8],
    ) -> Result<Setup, Refusal>
        ensures answer { Makes n m (make_refusal n m (length values.old) (length marks.old)) result }
        ensures values { values.new ≡ if_accepted (make_refusal n m (length values.old) (length marks.old)) (blank_values n m values.old) values.old }
        ensures marks { marks.new ≡ if_accepted (make_refusal n m (length values.old) (length marks.old)) (blank_marks n m marks.old) marks.old }
    {
        let table = Table::new(n, m, values, marks)?;
        Ok(Setup { table })
    }

    // Marks a node faulty, which it may be already.
    pub fn mark_faulty(&mut self, node: usize) -> Result<(), Refusal>
        ensures answer { result ≡ answered (mark_faulty_refusal self.old.table node) tt }
        ensures state { self.new.table ≡ if_accepted (mark_faulty_refusal self.old.table node) (with_node self.old.table node marked) self.old.table }
    {
        if node >= self.table.n {
            return Err(Refusal::NoNode);
        }
        self.table.nodes[node].faulty = true;
        Ok(())
    }

    // Gives an honest node its first cell of an item; the latest stands.
    pub fn propose<R: Copy>(
        &self,
        values: &mut [Option<R>],
        node: usize,
        item: usize,
        cell: Option<R>,
    ) -> Result<(), Refusal>
        ensures answer { result ≡ answered (propose_refusal self.now.table (fits (cells_needed self.now.table) values.old) node item) tt }
        ensures values { values.new ≡ if_accepted (propose_refusal self.now.table (fits (cells_needed self.now.table) values.old) node item) (slice_set values.old (cell_place self.now.table node item) cell) values.old }
    {
        self.table.propose(values, node, item, cell)
    }

    // Opens the run at step 1.
    pub fn open(self) -> Instance
        ensures { result ≡ opened self }
    {
        let Setup { table } = self;
        Instance {
            table,
            phase: Phase::Poll,
            round: 1,
        }
    }
}
