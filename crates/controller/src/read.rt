//! Octets read as a message.
ghost use Rattle.std.specs.Prelude.{◌≡◌, ◌≤◌, false, length};
ghost use Rattle.std.specs.Result.{result_map_both};
ghost use Rattle.reading.specs.Octets.{placed};
ghost use Rattle.wire.specs.Bits.{octets_for};
ghost use Rattle.wire.specs.Looks.{has_cells};
ghost use Rattle.wire.specs.Messages.{parts_of};
ghost use Rattle.wire.specs.Reads.{read_answer};
ghost use Rattle.controller.specs.Answers.{fault_number, after, fault_after};
ghost use Rattle.controller.specs.Places.{put_front};
ghost use Rattle.controller.specs.Reads.{flags, items_octets, told_head, items_room, with_room, message_read};

use crate::faults::tell;
use crate::types::{MessageFault, MessageHead};
use reading::bearing::Bearing;
use reading::lamp::Lamp;
use reading::{Kind, Reading};
use refusal::{Fault, Refusal};
use wire::read::read_message;
use wire::{Message, in_message};

// What a message says besides its items.
fn told_head(message: &Message<'_>) -> MessageHead
    ensures { result ≡ told_head (parts_of message.now) }
{
    MessageHead {
        step: message.step(),
        node: message.node(),
        items: message.items(),
        letter: message.letter().octet(),
    }
}

// Writes an octet for each bit of a message of bits to a place of just that size.
fn fill_flags(message: &Message<'_>, items: &mut [u8])
    requires bits { has_cells (parts_of message.now).front.letter ≡ false }
    requires body { octets_for (parts_of message.now).count ≤ length (parts_of message.now).rest }
    requires room { length items.old ≡ (parts_of message.now).count }
    ensures { items.new ≡ flags (parts_of message.now).rest (parts_of message.now).count }
{
    for (i, place) in items.iter_mut().enumerate() {
        let Ok(bit) = message.bit(i) else {
            unreachable()
        };
        *place = u8::from(bit);
    }
}

// Writes an octet for each bit of a message of bits to the front of a place, if it has room for them.
fn write_flags(message: &Message<'_>, items: &mut [u8]) -> Result<(), Fault>
    requires bits { has_cells (parts_of message.now).front.letter ≡ false }
    requires body { octets_for (parts_of message.now).count ≤ length (parts_of message.now).rest }
    ensures answer { result ≡ items_room items.old (parts_of message.now) tt }
    ensures after { items.new ≡ placed (length (items_octets (parts_of message.now))) (items_octets (parts_of message.now)) items.old }
{
    let count = message.items();
    if items.len() < count {
        return Err(in_message(Refusal::Short, 0));
    }
    fill_flags(message, &mut items[0..count]);
    Ok(())
}

// Writes the items of a message to the front of a place, if it has room for them.
fn write_items(message: &Message<'_>, items: &mut [u8]) -> Result<(), Fault>
    requires { has_cells (parts_of message.now).front.letter ≡ false → octets_for (parts_of message.now).count ≤ length (parts_of message.now).rest }
    ensures answer { result ≡ items_room items.old (parts_of message.now) tt }
    ensures after { items.new ≡ placed (length (items_octets (parts_of message.now))) (items_octets (parts_of message.now)) items.old }
{
    match message {
        Message::Poll { body, .. } | Message::Echo { body, .. } => {
            if items.len() < body.len() {
                return Err(in_message(Refusal::Short, 0));
            }
            items[..body.len()].copy_from_slice(body);
            Ok(())
        }
        Message::Bits { .. } | Message::Final { .. } => write_flags(message, items),
    }
}

// Reads a message of a kind, and writes its items to the front of a place.
fn read_kind<R: Reading>(
    n: usize,
    m: usize,
    octets: &[u8],
    items: &mut [u8],
) -> Result<MessageHead, Fault>
    ensures answer { result ≡ result_map_both told_head (λ f. f) (with_room items.old (read_answer R.Reading.WIDTH R.Reading.reads n m octets.now)) }
    ensures after { items.new ≡ after (with_room items.old (read_answer R.Reading.WIDTH R.Reading.reads n m octets.now)) (λ p. put_front (items_octets p)) items.old }
{
    let message = read_message::<R>(octets, n, m)?;
    write_items(&message, items)?;
    Ok(told_head(&message))
}

// Reads a message of the kind that a letter names, and writes its items to the front of a place.
fn read_by(
    kind: u8,
    n: usize,
    m: usize,
    octets: &[u8],
    items: &mut [u8],
) -> Result<MessageHead, Fault>
    ensures answer { result ≡ result_map_both told_head (λ f. f) (message_read kind n m octets.now items.old) }
    ensures after { items.new ≡ after (message_read kind n m octets.now items.old) (λ p. put_front (items_octets p)) items.old }
{
    match Kind::try_from(kind) {
        Ok(Kind::Bearings) => read_kind::<Bearing>(n, m, octets, items),
        Ok(Kind::Lamps) => read_kind::<Lamp>(n, m, octets, items),
        Err(_) => Err(in_message(Refusal::StrangeLetter, 0)),
    }
}

// Reads octets as a message for n nodes and m items: tells its head, writes its items to the front of a place, or tells the fault.
#[unsafe(no_mangle)]
pub extern "C" fn rilvatok_read_message(
    kind: u8,
    n: usize,
    m: usize,
    octets: &[u8],
    head: &mut MessageHead,
    items: &mut [u8],
    fault: &mut MessageFault,
) -> u8
    ensures answer { result ≡ fault_number (message_read kind n m octets.now items.old) }
    ensures head { head.new ≡ after (message_read kind n m octets.now items.old) (λ p _. told_head p) head.old }
    ensures items { items.new ≡ after (message_read kind n m octets.now items.old) (λ p. put_front (items_octets p)) items.old }
    ensures fault { fault.new ≡ fault_after (message_read kind n m octets.now items.old) fault.old }
{
    match read_by(kind, n, m, octets, items) {
        Ok(said) => {
            *head = said;
            0
        }
        Err(found) => tell(found, fault),
    }
}
