//! The checks of what the faulty nodes send.
ghost use Rattle.std.specs.Prelude.{◌≡◌, ◌*◌, ◌<◌, ◌≤◌, length, Ok, Err};
ghost use Rattle.board.specs.Sends.{is_word, send_checks};
ghost use Rattle.board.specs.Tables.{marks_needed};
ghost use Rattle.refusal.specs.Refusals.{answered};

use super::grid::Grid;
use super::states::Table;
use closing::Mark;
use refusal::Refusal;

// Whether an octet of the marks board is a word of the side that this step is on.
fn is_word(cells: bool, octet: u8) -> bool
    ensures { result ≡ is_word cells octet }
{
    match Mark::from(octet) {
        Mark::Nothing => false,
        Mark::Cell => cells,
        Mark::Zero | Mark::One => !cells,
    }
}

impl Table {
    // The checks of a send, but for its boards; `cells` is whether cells are sent in this step, `over` whether nothing can be sent any more,
    // and `wrong` whether the send is of the wrong side, or of a bit above 1.
    pub fn check_send<'a>(
        &self,
        flags: &Grid<'a, u8>,
        cells: bool,
        over: bool,
        wrong: bool,
        sender: usize,
        receiver: usize,
        item: usize,
    ) -> Result<(), Refusal>
        requires room { marks_needed self.now ≤ length flags.now.cells.now }
        requires shape { (flags.now.rows ≡ self.now.n * self.now.n) × (flags.now.width ≡ self.now.m) }
        ensures is { result ≡ answered (send_checks self.now cells over flags.now.cells.now wrong sender receiver item) tt }
        ensures within { elim result [ Ok _ ↦ (sender < self.now.n) × (receiver < self.now.n) × (item < self.now.m) | Err e ↦ Unit {0} ] }
    {
        if sender >= self.n || receiver >= self.n {
            return Err(Refusal::NoNode);
        }
        if item >= self.m {
            return Err(Refusal::NoItem);
        }
        if !self.is_faulty(sender) {
            return Err(Refusal::HonestSender);
        }
        if self.is_faulty(receiver) {
            return Err(Refusal::FaultyNode);
        }
        if wrong {
            return Err(Refusal::WrongPhase);
        }
        let mark = flags.get(self.row(sender, receiver), item);
        if is_word(cells, mark) || self.is_final(sender, receiver) {
            return Err(Refusal::Repeated);
        }
        if over {
            return Err(Refusal::Over);
        }
        Ok(())
    }
}
