//! A whole script, played through the calls of a run.
#![tactic(auto)]

ghost use Rattle.std.specs.Prelude.{◌≡◌, ◌+◌, length, nat_lt};
ghost use Rattle.play.specs.Lending.{lent, SameBoards, SameLengths};
ghost use Rattle.play.specs.Played.{bad_sizes, play_refusal, Plays};
ghost use Rattle.refusal.specs.Refusals.{refuse, answered};
ghost use Rattle.refusal.specs.declared.Refusal.TheVariants.{Short};

use agreement::Setup;
use coin::Coin;
use law::{Answer, Call, SetupCall};
use reading::Reading;
use refusal::Refusal;
use script::run_script;

pub mod apply;
pub mod boards;
pub mod owned;
mod script;

pub use boards::Boards;
pub use owned::OwnedBoards;

// Whether a number of nodes or items is 0 or above 16.
fn bad_sizes(n: usize, m: usize) -> bool
    ensures { result ≡ bad_sizes n m }
{
    !(1..=16).contains(&n) || !(1..=16).contains(&m)
}

// How many answers there are, where so many places hold them.
fn fitting_count(first: usize, next: usize, places: usize) -> Result<usize, Refusal>
    ensures { result ≡ answered (refuse (nat_lt places (first + next)) Short None) (first + next) }
{
    first
        .checked_add(next)
        .filter(|count| *count <= places)
        .ok_or(Refusal::Short)
}

// Plays a script: makes a setup of n nodes and m items, makes every setup call, opens it, and makes every call in order, each close with this coin.
// Writes every answer to the front of `answers`, and gives their number. The calls that a board is too short for answer so.
pub fn play<'a, R: Reading, C: Coin>(
    n: usize,
    m: usize,
    setup: &[SetupCall<R>],
    calls: &[Call<R>],
    coin: &C,
    boards: &mut Boards<'a, R>,
    answers: &mut [Answer<R>],
) -> Result<usize, Refusal>
    ensures answer { result ≡ answered (play_refusal n m (length boards.old.values.now) (length boards.old.marks.now) (length setup.now + length calls.now) (length answers.old)) (length setup.now + length calls.now) }
    ensures plays { Plays R.Reading.meaning (C.Coin.tosses coin.now) n m setup.now calls.now (play_refusal n m (length boards.old.values.now) (length boards.old.marks.now) (length setup.now + length calls.now) (length answers.old)) (lent boards.old) (lent boards.new) answers.old answers.new }
    ensures same_boards { SameBoards boards.new boards.old }
    ensures same_lengths { SameLengths (lent boards.new) (lent boards.old) }
{
    if bad_sizes(n, m) {
        return Err(Refusal::BadSize);
    }
    let count = fitting_count(setup.len(), calls.len(), answers.len())?;
    let made = Setup::new(n, m, boards.values, boards.marks)?;
    run_script(made, setup, calls, coin, boards, answers);
    Ok(count)
}
