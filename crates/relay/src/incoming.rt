//! A message, delivered to an instance: its calls are made one after the other.
ghost use Rattle.std.specs.Prelude.{◌≡◌, ◌<◌, ◌≤◌, false, length};
ghost use Rattle.refusal.specs.Refusals.{answered};
ghost use Rattle.relay.specs.Deliveries.{calls_of, call_at, count_calls, is_strange, has_strange, deliver_refusal, Sent, AllSent, Delivers};
ghost use Rattle.wire.specs.Messages.{parts_of};

use agreement::Instance;
use law::{Answer, Told};
use reading::Reading;
use refusal::Refusal;
use wire::{BitLetter, Letter, Message};

// How many calls a message stands for.
fn count_calls(message: &Message<'_>) -> usize
    ensures { let p = parts_of message.now in result ≡ count_calls p.front.letter p.count }
{
    match message.letter() {
        Letter::OfBits(BitLetter::Final) => message.items() + 1,
        Letter::OfBits(BitLetter::Bits) | Letter::OfCells(_) => message.items(),
    }
}

// Whether an item of a message does not read.
fn is_strange<R: Reading>(message: &Message<'_>, item: usize) -> bool
    ensures { result ≡ is_strange R.Reading.WIDTH R.Reading.reads (parts_of message.now) item }
{
    match message.letter() {
        Letter::OfCells(_) => message.cell::<R>(item).is_err(),
        Letter::OfBits(_) => message.bit(item).is_err(),
    }
}

// Whether some item of a message does not read.
fn has_strange<R: Reading>(message: &Message<'_>) -> bool
    ensures { result ≡ has_strange R.Reading.WIDTH R.Reading.reads (parts_of message.now) }
{
    (0..message.items()).any(|item| is_strange::<R>(message, item))
}

// Makes the call that stands at a place among those of a message; behind its items that is the send of final bits.
// The instance and the two boards stay lent apart, as the sends below take them: a struct of them would be opened at each.
fn send_part<R: Reading>(
    message: &Message<'_>,
    instance: &mut Instance,
    sent: &mut [Option<R>],
    marks: &mut [u8],
    receiver: usize,
    place: usize,
) -> Answer<R>
    requires { let p = parts_of message.now in place < p.count → is_strange R.Reading.WIDTH R.Reading.reads p place ≡ false }
    ensures { Sent R.Reading.meaning instance.old instance.new sent.old sent.new marks.old marks.new (call_at R.Reading.WIDTH R.Reading.reads receiver (parts_of message.now) place) result }
{
    let sender = message.node();
    if place >= message.items() {
        return instance.send_final(sender, receiver).map(|()| Told::Done);
    }
    match message.letter() {
        Letter::OfCells(_) => {
            let cell = message.cell::<R>(place)?;
            instance
                .send_value(sent, marks, sender, receiver, place, cell)
                .map(|()| Told::Done)
        }
        Letter::OfBits(_) => {
            let bit = message.bit(place)?;
            instance
                .send_bit(marks, sender, receiver, place, u8::from(bit))
                .map(|()| Told::Done)
        }
    }
}

// Makes the calls of a message one after the other, and writes their answers to the front of the list.
fn send_all<R: Reading>(
    message: &Message<'_>,
    instance: &mut Instance,
    sent: &mut [Option<R>],
    marks: &mut [u8],
    receiver: usize,
    answers: &mut [Answer<R>],
)
    requires room { let p = parts_of message.now in count_calls p.front.letter p.count ≤ length answers.old }
    requires told { has_strange R.Reading.WIDTH R.Reading.reads (parts_of message.now) ≡ false }
    ensures { AllSent R.Reading.meaning instance.old instance.new sent.old sent.new marks.old marks.new (calls_of R.Reading.WIDTH R.Reading.reads receiver (parts_of message.now)) answers.old answers.new }
{
    let used = &mut answers[..count_calls(message)];
    for (place, answer) in used.iter_mut().enumerate() {
        *answer = send_part(message, instance, sent, marks, receiver, place);
    }
}

// Delivers a message to the instance, as sent by its node to this receiver: each item from item 0 on, and final bits are then made to stay.
// Writes what each call answered to the front of `answers`, and gives their number.
pub fn deliver<R: Reading>(
    message: &Message<'_>,
    instance: &mut Instance,
    sent: &mut [Option<R>],
    marks: &mut [u8],
    receiver: usize,
    answers: &mut [Answer<R>],
) -> Result<usize, Refusal>
    ensures answer { let p = parts_of message.now in result ≡ answered (deliver_refusal R.Reading.WIDTH R.Reading.reads receiver p instance.old (length answers.old)) (length (calls_of R.Reading.WIDTH R.Reading.reads receiver p)) }
    ensures delivers { let p = parts_of message.now in Delivers R.Reading.meaning instance.old instance.new sent.old sent.new marks.old marks.new (deliver_refusal R.Reading.WIDTH R.Reading.reads receiver p instance.old (length answers.old)) (calls_of R.Reading.WIDTH R.Reading.reads receiver p) answers.old answers.new }
{
    let count = count_calls(message);
    if answers.len() < count {
        return Err(Refusal::Short);
    }
    if has_strange::<R>(message) {
        return Err(Refusal::StrangeReading);
    }
    if message.step() != instance.step() {
        return Err(Refusal::OutOfTurn);
    }
    send_all(message, instance, sent, marks, receiver, answers);
    Ok(count)
}
