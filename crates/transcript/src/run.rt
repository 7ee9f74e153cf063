//! What a line of a run of either kind is answered by.
ghost use Rattle.std.specs.Prelude.{◌≡◌, Some};
ghost use Rattle.std.specs.Result.{result_map_both};
ghost use Rattle.refusal.specs.Failures.{IfEnough};
ghost use Rattle.transcript.specs.Runs.{standing, made_run, first_run, run_served, Answers};

use super::answers::answer_line;
use super::types::Run;
use console::{Command, Kind, Turn, parse_line};
use desk::Desk;
use reading::bearing::Bearing;
use refusal::{Failure, Refusal};
use spelling::write_refused;
use std::alloc::{AllocError, Global};

// A new run of a kind.
fn new_run(heap: Global, n: usize, m: usize, kind: Kind) -> Result<Run, Failure>
    ensures { IfEnough result (λ a. result_map_both (λ r. standing (Some r)) (λ e. e) a ≡ made_run n m kind) }
{
    match kind {
        Kind::Bearings => Ok(Run::Bearings(Desk::make(heap, n, m)?)),
        Kind::Lamps => Ok(Run::Lamps(Desk::make(heap, n, m)?)),
    }
}

// The run that a first line makes. A kind's readings are of no account in it.
fn first_run(heap: Global, line: &[u8]) -> Result<Run, Failure>
    ensures { IfEnough result (λ a. result_map_both (λ r. standing (Some r)) (λ e. e) a ≡ first_run line.now) }
{
    match parse_line::<Bearing>(line, Turn::First)? {
        Command::Make { n, m, kind } => new_run(heap, n, m, kind),
        _ => Err(Failure::Refused(Refusal::OutOfTurn)),
    }
}

// Runs what a line asks for, and adds what answers it to a text. The first line that is accepted makes the run.
pub fn answer_run(
    run: &mut Option<Run>,
    heap: Global,
    number: u64,
    line: &[u8],
    text: &mut Vec<u8>,
) -> Result<(), AllocError>
    ensures { Answers result text.old.items text.new.items (standing run.new) (run_served (standing run.old) number line.now) }
{
    match run {
        Some(Run::Bearings(desk)) => answer_line(desk, heap, number, line, text),
        Some(Run::Lamps(desk)) => answer_line(desk, heap, number, line, text),
        None => match first_run(heap, line) {
            Ok(made) => {
                *run = Some(made);
                Ok(())
            }
            Err(Failure::Refused(refusal)) => write_refused(text, number, refusal),
            Err(Failure::OutOfMemory) => Err(AllocError),
        },
    }
}
