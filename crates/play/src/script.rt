//! The calls of a script one after the other, with their answers written down.
ghost use Rattle.std.specs.Prelude.{◌≡◌, ◌+◌, ◌≤◌, ◌++◌, length, take, drop};
ghost use Rattle.law.specs.Runs.{setup_run, setup_history, run, history};
ghost use Rattle.play.specs.Lending.{lent, SameBoards, SameLengths};
ghost use Rattle.play.specs.Moves.{setup_moves_of, moves_of, world_of, surplus, setup_says, call_says};
ghost use Rattle.play.specs.Played.{Ran};

use super::apply::{apply, apply_setup};
use super::boards::Boards;
use agreement::{Instance, Setup};
use coin::Coin;
use law::{Answer, Call, SetupCall};
use reading::Reading;

// Makes the calls on a setup, and writes their answers to the front of the list.
pub fn make_setup_calls<R: Reading>(
    setup: &mut Setup,
    calls: &[SetupCall<R>],
    values: &mut [Option<R>],
    answers: &mut [Answer<R>],
)
    requires { length calls.now ≤ length answers.old }
    ensures setup { record { table = setup.new.table; values = values.new } ≡ setup_run (record { table = setup.old.table; values = values.old }) (setup_moves_of setup.old.table.n setup.old.table.m values.old calls.now) }
    ensures answers { answers.new ≡ setup_says (setup_history (record { table = setup.old.table; values = values.old }) (setup_moves_of setup.old.table.n setup.old.table.m values.old calls.now)) ++ drop (length calls.now) answers.old }
{
    for (k, call) in calls.iter().enumerate() {
        answers[k] = apply_setup(setup, call, values);
    }
}

// Makes the calls on an instance, each close with this coin, and writes their answers to the front of the list.
pub fn make_calls<'a, R: Reading, C: Coin>(
    instance: &mut Instance,
    calls: &[Call<R>],
    coin: &C,
    boards: &mut Boards<'a, R>,
    answers: &mut [Answer<R>],
)
    requires { length calls.now ≤ length answers.old }
    ensures world { world_of instance.new (lent boards.new) ≡ run R.Reading.meaning (world_of instance.old (lent boards.old)) (moves_of instance.old.table.n instance.old.table.m (lent boards.old) (C.Coin.tosses coin.now) calls.now) }
    ensures answers { answers.new ≡ call_says (history R.Reading.meaning (world_of instance.old (lent boards.old)) (moves_of instance.old.table.n instance.old.table.m (lent boards.old) (C.Coin.tosses coin.now) calls.now)) ++ drop (length calls.now) answers.old }
    ensures rest { surplus instance.old.table (lent boards.new) ≡ surplus instance.old.table (lent boards.old) }
    ensures same_boards { SameBoards boards.new boards.old }
    ensures same_lengths { SameLengths (lent boards.new) (lent boards.old) }
{
    for (k, call) in calls.iter().enumerate() {
        answers[k] = apply(instance, call, coin, boards);
    }
}

// Makes all calls of a script from a new setup on, and writes their answers to the front of the list.
pub fn run_script<'a, R: Reading, C: Coin>(
    mut setup: Setup,
    first: &[SetupCall<R>],
    next: &[Call<R>],
    coin: &C,
    boards: &mut Boards<'a, R>,
    answers: &mut [Answer<R>],
)
    requires { length first.now + length next.now ≤ length answers.old }
    ensures ran { Ran R.Reading.meaning (C.Coin.tosses coin.now) setup.table (lent boards.old) first.now next.now (lent boards.new) answers.old answers.new }
    ensures same_boards { SameBoards boards.new boards.old }
    ensures same_lengths { SameLengths (lent boards.new) (lent boards.old) }
{
    let (early, late) = answers.split_at_mut(first.len());
    make_setup_calls(&mut setup, first, boards.values, early);
    let mut instance = setup.open();
    make_calls(&mut instance, next, coin, boards, late);
}
