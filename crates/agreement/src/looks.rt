//! What was decided, and what is undecided.
ghost use Rattle.std.specs.Prelude.{◌≡◌, length};
ghost use Rattle.agreement.specs.Calls.{undecided_refusal};
ghost use Rattle.board.specs.Lists.{Lists};
ghost use Rattle.board.specs.Looks.{decision_refusal, decision_of};
ghost use Rattle.board.specs.Tables.{fits, cells_needed, undecided_count};
ghost use Rattle.refusal.specs.Refusals.{answered};

use super::states::{Instance, Outcome};
use board::Decision;
use refusal::Refusal;

impl Instance {
    // What an honest node has decided of an item so far.
    pub fn decision<R: Copy>(
        &self,
        values: &[Option<R>],
        node: usize,
        item: usize,
    ) -> Result<Decision<R>, Refusal>
        ensures { result ≡ answered (decision_refusal self.now.table (fits (cells_needed self.now.table) values.now) node item) (decision_of self.now.table values.now node item) }
    {
        self.table.decision(values, node, item)
    }

    // Writes node * 16 + item for each undecided item of each honest node into the list, each once, and gives their number.
    pub fn undecided(&self, list: &mut [usize]) -> Result<usize, Refusal>
        ensures answer { result ≡ answered (undecided_refusal self.now.table (length list.old)) (undecided_count self.now.table) }
        ensures list { Lists self.now.table (undecided_refusal self.now.table (length list.old)) list.old list.new }
    {
        let count = self.table.count_undecided();
        if list.len() < count {
            return Err(Refusal::Short);
        }
        self.table.list_undecided(list);
        Ok(count)
    }
}

// An instance and an outcome each ask their table: a trait for the two would state the same clause a third time.
impl Outcome {
    // What an honest node had decided of an item when the run ended.
    pub fn decision<R: Copy>(
        &self,
        values: &[Option<R>],
        node: usize,
        item: usize,
    ) -> Result<Decision<R>, Refusal>
        ensures { result ≡ answered (decision_refusal self.now.table (fits (cells_needed self.now.table) values.now) node item) (decision_of self.now.table values.now node item) }
    {
        let table = &self.table;
        table.decision(values, node, item)
    }
}
