//! Closing a step: every honest node closes on what was sent before.
ghost use Rattle.std.specs.Prelude.{◌≡◌};
ghost use Rattle.agreement.specs.Calls.{close_refusal};
ghost use Rattle.agreement.specs.Closes.{step_now};
ghost use Rattle.agreement.specs.Done.{CloseDone};
ghost use Rattle.hearing.specs.Rooms.{boards_fit};

use super::phase::{advance, next_round};
use super::states::{Event, Instance};
use closing::Step;
use closing::counting::{quorum, weak_quorum};
use coin::Coin;
use hearing::{boards_fit, close_step};
use reading::Reading;
use refusal::Refusal;

impl Instance {
    // The step that is in force, with its thresholds.
    fn step_now(&self) -> Step
        ensures { result ≡ step_now self.now }
    {
        let n = self.table.n;
        Step {
            phase: self.phase,
            round: self.round,
            quorum: quorum(n),
            weak_quorum: weak_quorum(n),
        }
    }

    // Closes the step: each honest node closes each item on what was sent before the close.
    // Each board is lent by itself, here as in every call: most calls need one or two of the four.
    pub fn close<R: Reading, C: Coin>(
        &mut self,
        coin: &C,
        values: &mut [Option<R>],
        scratch: &mut [Option<R>],
        sent: &[Option<R>],
        marks: &mut [u8],
    ) -> Result<(), Refusal>
        ensures { CloseDone R.Reading.meaning (C.Coin.tosses coin.now) (close_refusal self.old (boards_fit self.old.table values.old scratch.old sent.now marks.old)) self.old self.new values.old values.new scratch.old scratch.new sent.now marks.old marks.new result }
    {
        if !boards_fit(&self.table, values, scratch, sent, marks) {
            return Err(Refusal::Short);
        }
        if self.is_over() {
            return Err(Refusal::Over);
        }
        let step = self.step_now();
        close_step(&mut self.table, &step, coin, values, scratch, sent, marks);
        self.round = next_round(self.phase, self.round);
        advance(&mut self.phase, Event::Close);
        Ok(())
    }
}
