//! One call of a script, made on a setup or on an instance.
ghost use Rattle.std.specs.Prelude.{◌≡◌};
ghost use Rattle.board.specs.Tables.{undecided_count};
ghost use Rattle.agreement.specs.Calls.{undecided_refusal};
ghost use Rattle.refusal.specs.Refusals.{answered};
ghost use Rattle.law.specs.declared.calls.Told.TheVariants.{Count, Done};
ghost use Rattle.std.specs.Result.{result_map_both};
ghost use Rattle.play.specs.Lending.{lent, SameBoards, SameLengths};
ghost use Rattle.play.specs.Moves.{setup_move_of, SetupMade, move_of, world_of, surplus, Made};

use super::boards::Boards;
use agreement::{Instance, Setup};
use coin::Coin;
use law::{Answer, Call, SetupCall, Told};
use reading::Reading;
use refusal::Refusal;

// What a call answers that has nothing more to say.
fn done<R>(made: Result<(), Refusal>) -> Answer<R>
    ensures { result ≡ result_map_both (λ _. Done) (λ e. e) made }
{
    made.map(|()| Told::Done)
}

// Asks for the undecided items on a list of so many places; no instance has more than 256.
fn apply_undecided<R>(instance: &Instance, places: usize) -> Answer<R>
    ensures { result ≡ answered (undecided_refusal instance.now.table places) (Count (undecided_count instance.now.table)) }
{
    let mut list = [0; 256];
    let all: &mut [usize] = &mut list;
    Ok(Told::Count(instance.undecided(&mut all[..places.min(256)])?))
}

// Makes a call on a setup.
pub fn apply_setup<R: Reading>(
    setup: &mut Setup,
    call: &SetupCall<R>,
    values: &mut [Option<R>],
) -> Answer<R>
    ensures { SetupMade (setup_move_of setup.old.table.n setup.old.table.m values.old call.now) (record { table = setup.old.table; values = values.old }) (record { table = setup.new.table; values = values.new }) result }
{
    let made = match *call {
        SetupCall::MarkFaulty { node } => setup.mark_faulty(node),
        SetupCall::Propose { node, item, cell } => setup.propose(values, node, item, cell),
    };
    done(made)
}

// Makes a call on an instance with these boards; a close brings this coin.
pub fn apply<'a, R: Reading, C: Coin>(
    instance: &mut Instance,
    call: &Call<R>,
    coin: &C,
    boards: &mut Boards<'a, R>,
) -> Answer<R>
    ensures made { Made R.Reading.meaning (move_of instance.old.table.n instance.old.table.m (lent boards.old) (C.Coin.tosses coin.now) call.now) (world_of instance.old (lent boards.old)) (world_of instance.new (lent boards.new)) result }
    ensures rest { surplus instance.old.table (lent boards.new) ≡ surplus instance.old.table (lent boards.old) }
    ensures same_boards { SameBoards boards.new boards.old }
    ensures same_lengths { SameLengths (lent boards.new) (lent boards.old) }
{
    let values = &mut *boards.values;
    let scratch = &mut *boards.scratch;
    let sent = &mut *boards.sent;
    let marks = &mut *boards.marks;
    match *call {
        Call::SendValue {
            sender,
            receiver,
            item,
            cell,
        } => done(instance.send_value(sent, marks, sender, receiver, item, cell)),
        Call::SendBit {
            sender,
            receiver,
            item,
            bit,
        } => done(instance.send_bit(marks, sender, receiver, item, bit)),
        Call::SendFinal { sender, receiver } => done(instance.send_final(sender, receiver)),
        Call::Close => done(instance.close(coin, values, scratch, sent, marks)),
        Call::Decision { node, item } => Ok(Told::Decision(instance.decision(values, node, item)?)),
        Call::Undecided { places } => apply_undecided(instance, places),
    }
}
