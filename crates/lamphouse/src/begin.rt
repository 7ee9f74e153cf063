//! The line that begins a run of one node.
ghost use Rattle.std.specs.Prelude.{◌≡◌};
ghost use Rattle.lamphouse.specs.Runs.{begin_kind, start_of, beginning_of, LineBegins};
ghost use Rattle.lines.specs.Fields.{fields};
ghost use Rattle.refusal.specs.Failures.{IfEnough};

use super::kind::kind_at_field;
use super::task::{fields_from, parse_all, parse_entries};
use lines::{count_fields, field, number};
use participant::Participant;
use reading::{Kind, Reading};
use refusal::{Failure, Refusal};
use std::alloc::Global;

// The sizes of a run, and its node.
#[derive(Clone, Copy)]
pub struct Start {
    pub n: usize,
    pub m: usize,
    pub node: usize,
}

// The kind of a run that a line begins.
pub fn begin_kind(line: &[u8]) -> Result<Kind, Refusal>
    ensures { result ≡ begin_kind (fields 32 line.now) }
{
    if !(7..=22).contains(&count_fields(line, b' ')) {
        return Err(Refusal::Torn);
    }
    kind_at_field(line, 1).ok_or(Refusal::StrangeReading)
}

// The sizes and the node that a line names.
fn parse_start(line: &[u8]) -> Option<Start>
    ensures { result ≡ start_of (fields 32 line.now) }
{
    let n = number(line, b' ', 2)?;
    let m = number(line, b' ', 3)?;
    let node = number(line, b' ', 4)?;
    Some(Start { n, m, node })
}

// The participant that a line begins, of this kind.
pub fn begin_line<R: Reading>(heap: Global, line: &[u8]) -> Result<Participant<R>, Failure>
    ensures { IfEnough result (λ a. LineBegins (beginning_of R.Reading.reads (fields 32 line.now)) a) }
{
    let start = parse_start(line).ok_or(Refusal::StrangeReading)?;
    let entries = field(line, b' ', 5).ok_or(Refusal::StrangeReading)?;
    let entries = parse_entries(heap, entries)?;
    let cells = parse_all::<Option<R>>(heap, fields_from(line, 6))?;
    Participant::begin(heap, start.n, start.m, start.node, &entries, &cells)
}
