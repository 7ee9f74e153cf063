//! The closings of the steps.
ghost use Rattle.std.specs.Prelude.{◌≡◌, cond};
ghost use Rattle.closing.specs.Closings.{phase_of, sends_cells, to_zero, to_one, by_toss, closed};
ghost use Rattle.closing.specs.Counting.{leading_of, graded};
ghost use Rattle.coin.specs.Tosses.{toss_of};

use super::counting::{count_votes, grade, leading};
use super::hearing::Hearing;
use super::types::{Closed, ItemState, Phase, Step};
use coin::Coin;
use reading::Reading;

impl Phase {
    // The phase of a step, and none outside 1 to 302.
    pub fn of_step(step: usize) -> Option<Phase>
        ensures { result ≡ phase_of step }
    {
        match step {
            1 => Some(Phase::Poll),
            2 => Some(Phase::Echo),
            3..=302 => match step % 3 {
                0 => Some(Phase::ToZero),
                1 => Some(Phase::ToOne),
                _ => Some(Phase::Toss),
            },
            _ => None,
        }
    }

    // Whether cells are sent in this phase; in the others bits are.
    pub fn sends_cells(self) -> bool
        ensures { result ≡ sends_cells self }
    {
        match self {
            Phase::Poll | Phase::Echo => true,
            Phase::ToZero | Phase::ToOne | Phase::Toss => false,
        }
    }
}

// Step 1 (MGC 1): the reading of the lowest node whose meaning has the quorum, or none.
pub fn close_poll<R: Reading, H: Hearing<R>>(step: &Step, heard: &H) -> Option<R>
    ensures { result ≡ leading_of R.Reading.meaning step.now.quorum (H.Hearing.cells heard.now) }
{
    leading(step.quorum, heard)
}

// Step 2 (MGC 2): the held cell and its grade.
pub fn close_echo<R: Reading, H: Hearing<R>>(step: &Step, heard: &H) -> (Option<R>, u8)
    ensures { result ≡ graded R.Reading.meaning step.now.quorum step.now.weak_quorum (H.Hearing.cells heard.now) }
{
    grade(step.quorum, step.weak_quorum, heard)
}

// Steps 3k (Coin-Fixed-To-0) and 3k + 1 (Coin-Fixed-To-1), by the bit that the coin is fixed to: the bit, and whether it is decided. Only that bit decides.
pub fn close_fixed<R, H: Hearing<R>>(bit: bool, step: &Step, heard: &H) -> (bool, bool)
    ensures { result ≡ cond bit (to_one step.now.quorum (H.Hearing.marks heard.now)) (to_zero step.now.quorum (H.Hearing.marks heard.now)) }
{
    let (zeros, ones) = count_votes(heard);
    let (same, other) = if bit { (ones, zeros) } else { (zeros, ones) };
    if same >= step.quorum {
        (bit, true)
    } else if other >= step.quorum {
        (!bit, false) // the other bit decides nothing here
    } else {
        (bit, false)
    }
}

// Step 3k + 2 (Coin-Genuinely-Flipped): the bit, which is the node's toss where neither bit has the quorum. Nothing is decided.
pub fn close_toss<R, C: Coin, H: Hearing<R>>(
    step: &Step,
    state: &ItemState,
    coin: &C,
    heard: &H,
) -> (bool, bool)
    ensures { result ≡ by_toss step.now.quorum (toss_of (C.Coin.tosses coin.now) state.now.node step.now.round state.now.item) (H.Hearing.marks heard.now) }
{
    let (zeros, ones) = count_votes(heard);
    if zeros >= step.quorum {
        (false, false)
    } else if ones >= step.quorum {
        (true, false) // the quorum comes before the toss
    } else {
        (coin.toss(state.node, step.round, state.item), false)
    }
}

// The closing of a step at one node for one item, from what it heard.
pub fn close_heard<R: Reading, C: Coin, H: Hearing<R>>(
    step: &Step,
    state: &ItemState,
    coin: &C,
    heard: &H,
) -> Closed<R>
    ensures { result ≡ closed R.Reading.meaning (C.Coin.tosses coin.now) step.now state.now (H.Hearing.cells heard.now) (H.Hearing.marks heard.now) }
{
    let (bit, decided) = match step.phase {
        Phase::Poll => return Closed::Polled {
            value: close_poll(step, heard),
        },
        Phase::Echo => {
            let (value, grade) = close_echo(step, heard);
            return Closed::Graded {
                value,
                grade,
                bit: grade != 2,
            };
        }
        Phase::ToZero => close_fixed(false, step, heard),
        Phase::ToOne => close_fixed(true, step, heard),
        Phase::Toss => close_toss(step, state, coin, heard),
    };
    if state.decided {
        Closed::Voted {
            bit: state.bit,
            decided: true,
        }
    } else {
        Closed::Voted { bit, decided }
    }
}
