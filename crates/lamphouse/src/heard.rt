//! The lines of a run of one node: the messages that it hears and sends, and the close of a step.
ghost use Rattle.std.specs.Prelude.{◌≡◌, map, replicate, IfOk, vec_items};
ghost use Rattle.lamphouse.specs.Runs.{heard_octets, step_refusal, answer_number, HeardSo};
ghost use Rattle.lines.specs.Digits.{hex_octets_of};
ghost use Rattle.lines.specs.Fields.{fields};
ghost use Rattle.refusal.specs.Failures.{IfEnough};
ghost use Rattle.refusal.specs.Refusals.{answered};
ghost use Rattle.refusal.specs.declared.Refusal.TheVariants.{StrangeReading};
ghost use Rattle.relay.specs.Own.{own_octets, own_refusal};
ghost use Rattle.std.specs.Option.{ok_or};
ghost use Rattle.std.specs.Result.{result_map_both};

use law::{Answer, Told};
use lines::{count_fields, field, hex_octets};
use participant::Participant;
use reading::Reading;
use refusal::{Failure, Refusal};
use std::alloc::{AllocError, Global};

// A message stands for a call of each of at most 16 items and one more.
const CALLS: usize = 17;

// The longest message: five octets, and of each of 16 items a flag and at most eight octets.
const LONGEST: usize = 149;

// The octets that a field writes, two hexadecimal digits each: some, and at most 100.
fn octets_of(heap: Global, digits: &[u8]) -> Result<Vec<u8>, Failure>
    ensures { IfEnough result (λ a. result_map_both vec_items (λ e. e) a ≡ ok_or (hex_octets_of 100 digits.now) StrangeReading) }
{
    let mut octets = [0; 100];
    let count = hex_octets(digits, &mut octets).ok_or(Refusal::StrangeReading)?;
    Ok(Vec::from_slice(heap, &octets[..count])?)
}

// The octets of a message that a line gives.
pub fn heard_octets(heap: Global, line: &[u8]) -> Result<Vec<u8>, Failure>
    ensures { IfEnough result (λ a. result_map_both vec_items (λ e. e) a ≡ heard_octets (fields 32 line.now)) }
{
    if count_fields(line, b' ') != 2 {
        return Err(Failure::Refused(Refusal::Torn));
    }
    let digits = field(line, b' ', 1).ok_or(Refusal::StrangeReading)?;
    octets_of(heap, digits)
}

// Checks a line that closes a step.
pub fn check_step(line: &[u8]) -> Result<(), Refusal>
    ensures { result ≡ answered (step_refusal (fields 32 line.now)) tt }
{
    if count_fields(line, b' ') != 1 {
        return Err(Refusal::StrangeLetter);
    }
    Ok(())
}

// The number of an answer: that of its refusal, or else 0.
fn answer_number<R: Copy>(answer: Answer<R>) -> u8
    ensures { result ≡ answer_number answer }
{
    match answer {
        Ok(_) => 0,
        Err(refusal) => refusal.number(),
    }
}

// The numbers of answers.
fn answer_numbers<R: Copy>(heap: Global, answers: &[Answer<R>]) -> Result<Vec<u8>, AllocError>
    ensures { IfOk result (λ v. v.items ≡ map answer_number answers.now) }
{
    answers
        .iter()
        .map(|answer| answer_number(*answer))
        .collect(heap)
}

// Lets a participant hear octets as a message: the number of what each call answered.
pub fn hear_message<R: Reading>(
    heap: Global,
    participant: &mut Participant<R>,
    octets: &[u8],
) -> Result<Vec<u8>, Failure>
    ensures { IfEnough result (λ a. HeardSo R.Reading.meaning R.Reading.WIDTH R.Reading.reads 17 participant.old participant.new octets.now (result_map_both vec_items (λ e. e) a)) }
{
    let mut answers = vec![in heap; Ok(Told::Done); CALLS]?;
    let count = participant.hear(octets, &mut answers)?;
    Ok(answer_numbers(heap, &answers[..count])?)
}

// The octets of the message that a participant sends in the step in force.
pub fn own_octets<R: Reading>(
    heap: Global,
    participant: &Participant<R>,
) -> Result<Vec<u8>, Failure>
    ensures { IfEnough result (λ a. let h = participant.now in result_map_both vec_items (λ e. e) a ≡ answered (own_refusal R.Reading.WIDTH R.Reading.octets h.world.state h.world.values h.node (replicate 149 0)) (own_octets R.Reading.WIDTH R.Reading.octets h.world.state h.world.values h.node)) }
{
    let mut place = [0; LONGEST];
    let count = participant.message(&mut place)?;
    Ok(Vec::from_slice(heap, &place[..count])?)
}
