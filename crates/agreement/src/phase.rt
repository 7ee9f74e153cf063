//! How an instance goes through its steps.
ghost use Rattle.std.specs.Prelude.{◌≡◌, ◌≤◌};
ghost use Rattle.agreement.specs.Closes.{next_round};
ghost use Rattle.agreement.specs.Phases.{phase_on, step_number};

use super::states::{Event, Instance, Outcome};
use closing::Phase;

// Moves a phase on, in place.
pub(crate) fn advance(phase: &mut Phase, event: Event)
    ensures { phase.new ≡ phase_on phase.old event }
{
    *phase = match (*phase, event) {
        (Phase::Poll, Event::Close) => Phase::Echo,
        (Phase::Echo, Event::Close) => Phase::ToZero,
        (Phase::ToZero, Event::Close) => Phase::ToOne,
        (Phase::ToOne, Event::Close) => Phase::Toss,
        (Phase::Toss, Event::Close) => Phase::ToZero,
        (same, Event::Send) => same,
    };
}

// The round after a close of this phase.
pub(crate) fn next_round(phase: Phase, round: usize) -> usize
    requires { round ≤ 100 }
    ensures { result ≡ next_round phase round }
{
    match phase {
        Phase::Poll | Phase::Echo | Phase::ToZero | Phase::ToOne => round,
        Phase::Toss => round + 1,
    }
}

impl Instance {
    // The number of the step: 1, 2, then 3k, 3k + 1 and 3k + 2 in round k, and 303 after the last.
    pub fn step(&self) -> usize
        ensures { result ≡ step_number self.now }
    {
        let k = self.round;
        if k > 100 {
            return 303;
        }
        match self.phase {
            Phase::Poll => 1,
            Phase::Echo => 2,
            Phase::ToZero => 3 * k,
            Phase::ToOne => 3 * k + 1,
            Phase::Toss => 3 * k + 2,
        }
    }

    // Ends the run, at any time.
    pub fn end(self) -> Outcome
        ensures { result ≡ record { table = self.table } }
    {
        let Instance { table, .. } = self;
        Outcome { table }
    }
}
