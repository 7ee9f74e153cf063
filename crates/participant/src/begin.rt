//! Beginning a run of one node.
ghost use Rattle.std.specs.Prelude.{◌≡◌, length, replicate, None, IfOk};
ghost use Rattle.law.specs.Runs.{setup_run};
ghost use Rattle.refusal.specs.Failures.{IfEnough};
ghost use Rattle.refusal.specs.Refusals.{answered};
ghost use Rattle.participant.specs.Held.{HasRoom};
ghost use Rattle.participant.specs.Participants.{size_refusal, begin_refusal, faulty_moves, cell_moves, Opens, Begins};

use super::state::Participant;
use agreement::{Instance, Setup};
use law::SetupCall;
use play::OwnedBoards;
use play::apply::apply_setup;
use reading::Reading;
use refusal::{Failure, Refusal};
use std::alloc::Global;

// Marks every node but this one faulty.
fn mark_others<R: Reading>(setup: &mut Setup, n: usize, node: usize, values: &mut [Option<R>])
    requires { length values.old ≡ 256 }
    ensures { record { table = setup.new.table; values = values.new } ≡ setup_run (record { table = setup.old.table; values = values.old }) (faulty_moves n node) }
{
    // A filter over the nodes was tried: its loop is not covered here, where the kind is a parameter.
    for other in 0..n {
        if other == node {
            continue;
        }
        let _ = apply_setup(setup, &SetupCall::MarkFaulty { node: other }, values);
    }
}

// Gives a node its first cells.
fn propose_cells<R: Reading>(
    setup: &mut Setup,
    node: usize,
    cells: &[Option<R>],
    values: &mut [Option<R>],
)
    requires { length values.old ≡ 256 }
    ensures { record { table = setup.new.table; values = values.new } ≡ setup_run (record { table = setup.old.table; values = values.old }) (cell_moves node cells.now) }
{
    for (item, cell) in cells.iter().enumerate() {
        let cell = *cell;
        let _ = apply_setup(setup, &SetupCall::Propose { node, item, cell }, values);
    }
}

// Makes an instance on blank boards: every node but this one is faulty, and this one begins with these cells.
fn open_instance<R: Reading>(
    n: usize,
    m: usize,
    node: usize,
    cells: &[Option<R>],
    values: &mut [Option<R>],
    marks: &mut [u8],
) -> Result<Instance, Refusal>
    requires { (values.old ≡ replicate 256 None) × (marks.old ≡ replicate 4096 0) }
    ensures { Opens n m node cells.now (size_refusal n m) values.new marks.new result }
{
    let mut setup = Setup::new(n, m, values, marks)?;
    mark_others(&mut setup, n, node, values);
    propose_cells(&mut setup, node, cells, values);
    Ok(setup.open())
}

// The checks of beginning.
fn check_begin(n: usize, m: usize, node: usize, entries: usize, cells: usize) -> Result<(), Refusal>
    ensures { result ≡ answered (begin_refusal n m node entries cells) tt }
{
    if !(1..=16).contains(&n) || !(1..=16).contains(&m) {
        return Err(Refusal::BadSize);
    }
    if !(1..=8).contains(&entries) {
        return Err(Refusal::Short);
    }
    if cells != m {
        return Err(Refusal::Torn);
    }
    if node >= n {
        return Err(Refusal::NoNode);
    }
    Ok(())
}

impl<R: Reading> Participant<R> {
    // Begins a run of n nodes and m items for one of the nodes, with its first cells and with a strip of these entries. It stands at step 1.
    pub fn begin(
        heap: Global,
        n: usize,
        m: usize,
        node: usize,
        entries: &[u16],
        cells: &[Option<R>],
    ) -> Result<Participant<R>, Failure>
        ensures begins { IfEnough result (λ a. Begins n m node entries.now cells.now (begin_refusal n m node (length entries.now) (length cells.now)) a) }
        ensures room { IfOk result (λ h. HasRoom h) }
    {
        check_begin(n, m, node, entries.len(), cells.len())?;
        let mut boards = OwnedBoards::new(heap)?;
        let entries = Vec::from_slice(heap, entries)?;
        let lent = &mut boards; // two fields of a local are not lent at once here
        let instance = open_instance(n, m, node, cells, &mut lent.values, &mut lent.marks)?;
        Ok(Participant {
            instance,
            node,
            boards,
            entries,
        })
    }
}
