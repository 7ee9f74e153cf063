//! What the faulty nodes send.
ghost use Rattle.std.specs.Prelude.{◌≡◌, ◌*◌, ◌<◌, ◌≤◌, length, Ok, Err, ◌==◌};
ghost use Rattle.agreement.specs.Calls.{is_over, send_checks, send_final_refusal, sent_after, final_after};
ghost use Rattle.agreement.specs.Effects.{value_refusal, bit_refusal};
ghost use Rattle.board.specs.Setups.{if_accepted};
ghost use Rattle.board.specs.Tables.{marks_needed};
ghost use Rattle.closing.specs.Counting.{mark_of};
ghost use Rattle.refusal.specs.Refusals.{answered};

use super::phase::advance;
use super::states::{Event, Instance};
use board::Grid;
use closing::Mark;
use refusal::Refusal;

impl Instance {
    // Whether nothing can be sent or closed any more.
    pub(crate) fn is_over(&self) -> bool
        ensures { result ≡ is_over self.now }
    {
        self.round > 100 || !self.table.any_undecided()
    }

    // The checks of a send, but for its boards; `wrong` is whether it is of the wrong side, or of a bit above 1.
    fn check_send<'a>(
        &self,
        flags: &Grid<'a, u8>,
        wrong: bool,
        sender: usize,
        receiver: usize,
        item: usize,
    ) -> Result<(), Refusal>
        requires room { marks_needed self.now.table ≤ length flags.now.cells.now }
        requires shape { (flags.now.rows ≡ self.now.table.n * self.now.table.n) × (flags.now.width ≡ self.now.table.m) }
        ensures is { result ≡ answered (send_checks self.now flags.now.cells.now wrong sender receiver item) tt }
        ensures within { elim result [ Ok _ ↦ (sender < self.now.table.n) × (receiver < self.now.table.n) × (item < self.now.table.m) | Err e ↦ Unit {0} ] }
    {
        let cells = self.phase.sends_cells();
        let over = self.is_over();
        self.table
            .check_send(flags, cells, over, wrong, sender, receiver, item)
    }

    // Sends a faulty sender's cell for one receiver and item.
    pub fn send_value<R: Copy>(
        &mut self,
        sent: &mut [Option<R>],
        marks: &mut [u8],
        sender: usize,
        receiver: usize,
        item: usize,
        cell: Option<R>,
    ) -> Result<(), Refusal>
        ensures answer { result ≡ answered (value_refusal self.old sent.old marks.old sender receiver item) tt }
        ensures sent { sent.new ≡ if_accepted (value_refusal self.old sent.old marks.old sender receiver item) (sent_after self.old.table sent.old sender receiver item cell) sent.old }
        ensures marks { marks.new ≡ if_accepted (value_refusal self.old sent.old marks.old sender receiver item) (sent_after self.old.table marks.old sender receiver item 1) marks.old }
        ensures state { self.new ≡ self.old }
    {
        let needed = self.table.marks_needed();
        if sent.len() < needed || marks.len() < needed {
            return Err(Refusal::Short);
        }
        let rows = self.table.n * self.table.n;
        let mut flags = Grid::new(marks, rows, self.table.m);
        let wrong = !self.phase.sends_cells();
        self.check_send(&flags, wrong, sender, receiver, item)?;
        let row = self.table.row(sender, receiver);
        flags.put(row, item, Mark::Cell.octet());
        let mut cells = Grid::new(sent, rows, self.table.m);
        cells.put(row, item, cell);
        advance(&mut self.phase, Event::Send);
        Ok(())
    }

    // Sends a faulty sender's bit for one receiver and item.
    pub fn send_bit(
        &mut self,
        marks: &mut [u8],
        sender: usize,
        receiver: usize,
        item: usize,
        bit: u8,
    ) -> Result<(), Refusal>
        ensures answer { result ≡ answered (bit_refusal self.old marks.old sender receiver item bit) tt }
        ensures marks { marks.new ≡ if_accepted (bit_refusal self.old marks.old sender receiver item bit) (sent_after self.old.table marks.old sender receiver item (mark_of (bit == 1))) marks.old }
        ensures state { self.new ≡ self.old }
    {
        if marks.len() < self.table.marks_needed() {
            return Err(Refusal::Short);
        }
        let mut flags = Grid::new(marks, self.table.n * self.table.n, self.table.m);
        let wrong = self.phase.sends_cells() || bit > 1;
        self.check_send(&flags, wrong, sender, receiver, item)?;
        let row = self.table.row(sender, receiver);
        flags.put(row, item, Mark::of_bit(bit == 1).octet());
        advance(&mut self.phase, Event::Send);
        Ok(())
    }

    // Makes what a faulty sender sent to a receiver stay in all later steps.
    pub fn send_final(&mut self, sender: usize, receiver: usize) -> Result<(), Refusal>
        ensures answer { result ≡ answered (send_final_refusal self.old sender receiver) tt }
        ensures state { self.new ≡ if_accepted (send_final_refusal self.old sender receiver) (final_after self.old sender receiver) self.old }
    {
        let n = self.table.n;
        if sender >= n || receiver >= n {
            return Err(Refusal::NoNode);
        }
        if !self.table.is_faulty(sender) {
            return Err(Refusal::HonestSender);
        }
        if self.table.is_faulty(receiver) {
            return Err(Refusal::FaultyNode);
        }
        if self.phase.sends_cells() {
            return Err(Refusal::WrongPhase);
        }
        if self.table.is_final(sender, receiver) {
            return Err(Refusal::Repeated);
        }
        if self.is_over() {
            return Err(Refusal::Over);
        }
        self.table.nodes[sender].finals[receiver] = true;
        Ok(())
    }
}
