//! What a message says, as text.
use crate::task::Task;
use lines::hex_digits;
use reading::Reading;
use refusal::Fault;
use spelling::write_number;
use std::alloc::AllocError;
use wire::Message;
use wire::read::read_message;

// Adds a space and a number.
fn write_next(text: &mut Vec<u8>, number: u64) -> Result<(), AllocError> {
    text.extend_from_slice(b" ")?;
    write_number(text, number)
}

// Adds `LINE fault NUMBER LAYER PLACE`.
fn write_fault(text: &mut Vec<u8>, line: u64, fault: &Fault) -> Result<(), AllocError> {
    write_number(text, line)?;
    text.extend_from_slice(b" fault")?;
    write_next(text, u64::from(fault.refusal.number()))?;
    write_next(text, u64::from(fault.layer.number()))?;
    write_next(text, fault.place as u64)?;
    text.extend_from_slice(b"\n")
}

// Adds a cell: a dash for none, or the reading's octets in hexadecimal.
fn write_cell<R: Reading>(text: &mut Vec<u8>, cell: &Option<R>) -> Result<(), AllocError> {
    let Some(reading) = cell else {
        return text.extend_from_slice(b"-");
    };
    let mut octets = [0; 8];
    let _ = reading.write(&mut octets);
    for octet in &octets[..R::WIDTH] {
        text.extend_from_slice(&hex_digits(*octet))?;
    }
    Ok(())
}

// Adds a space and what the message says of an item: its cell, its bit, or a question mark where it says neither.
fn write_item<R: Reading>(
    text: &mut Vec<u8>,
    message: &Message<'_>,
    item: usize,
) -> Result<(), AllocError> {
    text.extend_from_slice(b" ")?;
    if let Ok(cell) = message.cell::<R>(item) {
        return write_cell(text, &cell);
    }
    text.push(match message.bit(item) {
        Ok(true) => b'1',
        Ok(false) => b'0',
        Err(_) => b'?',
    })?;
    Ok(())
}

// Adds `LINE ok LETTER step node ITEM...`.
fn write_message<R: Reading>(
    text: &mut Vec<u8>,
    line: u64,
    message: &Message<'_>,
) -> Result<(), AllocError> {
    write_number(text, line)?;
    text.extend_from_slice(b" ok ")?;
    text.push(message.letter().octet())?;
    write_next(text, message.step() as u64)?;
    write_next(text, message.node() as u64)?;
    for item in 0..message.items() {
        write_item::<R>(text, message, item)?;
    }
    text.extend_from_slice(b"\n")
}

// Adds what reading the octets of a line's task answers.
pub(crate) fn write_outcome<R: Reading>(
    text: &mut Vec<u8>,
    line: u64,
    task: &Task<'_>,
) -> Result<(), AllocError> {
    match read_message::<R>(task.octets, task.n, task.m) {
        Ok(message) => write_message::<R>(text, line, &message),
        Err(fault) => write_fault(text, line, &fault),
    }
}
