//! The marks after a close.
ghost use Rattle.std.specs.Prelude.{◌≡◌, ◌<◌, ◌≤◌, length};
ghost use Rattle.board.specs.Tables.{marks_needed, mark_kept, marks_after};

use super::states::Table;
use closing::Mark;

impl Table {
    // The mark at place k after a close.
    fn next_mark(&self, mark: u8, k: usize) -> u8
        requires { k < marks_needed self.now }
        ensures { result ≡ mark_kept self.now mark k }
    {
        let row = k / self.m;
        if self.is_final(row / self.n, row % self.n) {
            mark
        } else {
            Mark::Nothing.octet()
        }
    }

    // Sets the marks to Nothing, 0, but for those that are final.
    pub fn clear_marks(&self, marks: &mut [u8])
        requires { marks_needed self.now ≤ length marks.old }
        ensures { marks.new ≡ marks_after self.now marks.old }
    {
        let used = &mut marks[..self.marks_needed()];
        for (k, mark) in used.iter_mut().enumerate() {
            *mark = self.next_mark(*mark, k);
        }
    }
}
