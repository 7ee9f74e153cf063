//! A script, and its performance on boards of its own.
ghost use Rattle.std.specs.Prelude.{◌≡◌, [], ◌∷◌, ◌++◌, IfOk, OnOk};
ghost use Rattle.rehearsal.specs.Scripts.{AnswersLawful};

use coin::Coin;
use law::{Answer, Call, SetupCall, Told};
use play::{Boards, OwnedBoards, play};
use reading::Reading;
use std::alloc::{AllocError, Global};

// The calls of a run of n nodes and m items.
#[derive(Drop)]
pub struct Script<R> {
    pub n: usize,
    pub m: usize,
    pub setup: Vec<SetupCall<R>>,
    pub calls: Vec<Call<R>>,
}

impl<R: Drop> Script<R> {
    // A script with no calls yet.
    pub fn new(heap: Global, n: usize, m: usize) -> Script<R>
        ensures { (result.n ≡ n) × (result.m ≡ m) × (result.setup.items ≡ []) × (result.calls.items ≡ []) }
    {
        Script {
            n,
            m,
            setup: Vec::new(heap),
            calls: Vec::new(heap),
        }
    }

    // Adds a call on the setup.
    pub fn first(&mut self, call: SetupCall<R>) -> Result<(), AllocError>
        ensures added { OnOk result (self.new.setup.items ≡ self.old.setup.items ++ call ∷ []) }
        ensures same { (self.new.calls ≡ self.old.calls) × (self.new.n ≡ self.old.n) × (self.new.m ≡ self.old.m) }
    {
        self.setup.push(call)?;
        Ok(())
    }

    // Adds a call on the instance.
    pub fn then(&mut self, call: Call<R>) -> Result<(), AllocError>
        ensures added { OnOk result (self.new.calls.items ≡ self.old.calls.items ++ call ∷ []) }
        ensures same { (self.new.setup ≡ self.old.setup) × (self.new.n ≡ self.old.n) × (self.new.m ≡ self.old.m) }
    {
        self.calls.push(call)?;
        Ok(())
    }

    // Adds the question for a decision of every item at each of the first `nodes` nodes.
    pub fn ask(&mut self, nodes: usize) -> Result<(), AllocError> {
        for node in 0..nodes {
            for item in 0..self.m {
                self.then(Call::Decision { node, item })?;
            }
        }
        Ok(())
    }
}

// Plays a script on boards that suffice for 16 nodes and 16 items, and gives all answers, those of the setup first.
pub fn perform<R: Reading, C: Coin>(
    heap: Global,
    script: &Script<R>,
    coin: &C,
) -> anyhow::Result<Vec<Answer<R>>>
    ensures { IfOk result (λ v. AnswersLawful R.Reading.meaning (C.Coin.tosses coin.now) script.now.n script.now.m script.now.setup.items script.now.calls.items v.items) }
{
    let OwnedBoards {
        mut values,
        mut scratch,
        mut sent,
        mut marks,
    } = OwnedBoards::new(heap)?;
    let mut boards = Boards {
        values: &mut values,
        scratch: &mut scratch,
        sent: &mut sent,
        marks: &mut marks,
    };
    let count = script.setup.len().saturating_add(script.calls.len());
    let mut answers = vec![in heap; Ok(Told::Done); count]?;
    play(
        script.n,
        script.m,
        &script.setup,
        &script.calls,
        coin,
        &mut boards,
        &mut answers,
    )?;
    Ok(answers)
}
