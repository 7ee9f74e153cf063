//! The list of what is undecided.
ghost use Rattle.std.specs.Prelude.{◌≡◌, ◌≤◌, ◌++◌, length, drop};
ghost use Rattle.board.specs.Lists.{entries};
ghost use Rattle.board.specs.Tables.{cells_needed, undecided_count};

use super::states::Table;

impl Table {
    // Writes node * 16 + item for each undecided item to the front of the list.
    pub fn list_undecided(&self, list: &mut [usize])
        requires { undecided_count self.now ≤ length list.old }
        ensures { list.new ≡ entries self.now (cells_needed self.now) ++ drop (undecided_count self.now) list.old }
    {
        // The place is kept by hand: only some pairs go on the list, and of what is written through `zip` with `iter_mut` nothing would be known.
        let mut count = 0;
        for node in 0..self.n {
            for item in 0..self.m {
                if self.is_undecided(node, item) {
                    list[count] = node * 16 + item;
                    count += 1;
                }
            }
        }
    }
}
