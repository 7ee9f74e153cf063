//! What the answers of a script come to.
ghost use Rattle.std.specs.Prelude.{◌≡◌};
ghost use Rattle.rehearsal.specs.Cells.{same_cell};

use super::stage::Script;
use board::Decision;
use law::{Answer, Call, SetupCall, Told};
use reading::Reading;
use std::alloc::{AllocError, Global};

// The first answer that a node has decided an item: the cell, and the step that was in force.
#[derive(Clone, Copy)]
pub struct Found<R> {
    pub node: usize,
    pub item: usize,
    pub cell: Option<R>,
    pub step: usize,
}

// What is counted over the answers.
// The decisions stand in the order in which they were found, which is printed: a map by node and item would lose it.
#[derive(Drop)]
pub struct Tally<R> {
    pub faulty: usize,
    pub refused: usize,
    pub step: usize,
    pub agree: bool,
    pub found: Vec<Found<R>>,
}

// Whether two cells mean the same.
fn same_cell<R: Reading>(a: &Option<R>, b: &Option<R>) -> bool
    ensures { result ≡ same_cell R.Reading.meaning a.now b.now }
{
    match (a, b) {
        (Some(a), Some(b)) => a.same(b),
        (None, None) => true,
        _ => false,
    }
}

impl<R: Reading> Tally<R> {
    // Takes what a call answered.
    fn take(&mut self, call: &Call<R>, answer: &Answer<R>) -> Result<(), AllocError> {
        match (*call, *answer) {
            (Call::Close, Ok(_)) => self.step = self.step.saturating_add(1),
            (Call::Decision { node, item }, Ok(Told::Decision(Decision::Decided(cell)))) => {
                self.take_decision(node, item, cell)?
            }
            _ => {}
        }
        Ok(())
    }

    // Takes a decision: it must mean what the decisions of the item meant so far.
    fn take_decision(
        &mut self,
        node: usize,
        item: usize,
        cell: Option<R>,
    ) -> Result<(), AllocError> {
        if self.found.iter().any(|found| found.item == item && !same_cell(&found.cell, &cell)) {
            self.agree = false;
        }
        if !self
            .found
            .iter()
            .any(|found| found.item == item && found.node == node)
        {
            let step = self.step;
            self.found.push(Found {
                node,
                item,
                cell,
                step,
            })?;
        }
        Ok(())
    }

    // How many nodes have decided an item.
    fn deciders(&self, item: usize) -> usize {
        self.found.iter().filter(|found| found.item == item).count()
    }

    // How many items of m every honest node of n has decided.
    pub fn everywhere(&self, n: usize, m: usize) -> usize {
        (0..m)
            .filter(|item| self.deciders(*item).saturating_add(self.faulty) == n)
            .count()
    }
}

// How many nodes were marked faulty.
fn marked<R: Reading>(script: &Script<R>, answers: &[Answer<R>]) -> usize {
    script
        .setup
        .iter()
        .zip(answers)
        .filter(|(call, answer)| matches!(call, SetupCall::MarkFaulty { .. }) && answer.is_ok())
        .count()
}

// The tally of a script's answers.
pub fn tally_up<R: Reading>(
    heap: Global,
    script: &Script<R>,
    answers: &[Answer<R>],
) -> Result<Tally<R>, AllocError> {
    let mut tally = Tally {
        faulty: marked(script, answers),
        refused: answers.iter().filter(|answer| answer.is_err()).count(),
        step: 1,
        agree: true,
        found: Vec::new(heap),
    };
    let rest = answers.iter().skip(script.setup.len());
    for (call, answer) in script.calls.iter().zip(rest) {
        tally.take(call, answer)?;
    }
    Ok(tally)
}
