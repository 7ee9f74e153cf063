//! Reads one message a line, and prints what it says or what is wrong with it.
#![tactic(auto)]

mod says;
mod task;

use lines::Incoming;
use reading::Kind;
use reading::bearing::Bearing;
use reading::lamp::Lamp;
use refusal::Refusal;
use says::write_outcome;
use spelling::write_refused;
use std::alloc::AllocError;
use std::io::Read;
use task::{Task, parse_task};

// Lines of 1 to 200 octets are taken.
const LIMIT: usize = 200;

// What the line that has come in asks for, with the message's octets written to the front of `room`.
fn read_task<'a>(line: &Incoming, room: &'a mut [u8]) -> Result<Task<'a>, Refusal> {
    parse_task(line.octets()?, room)
}

// Adds what the line that has come in answers.
fn answer(text: &mut Vec<u8>, line: &Incoming) -> Result<(), AllocError> {
    let mut room = [0; 100];
    let number = line.number();
    match read_task(line, &mut room) {
        Ok(task) => match task.kind {
            Kind::Bearings => write_outcome::<Bearing>(text, number, &task),
            Kind::Lamps => write_outcome::<Lamp>(text, number, &task),
        },
        Err(refusal) => write_refused(text, number, refusal),
    }
}

// Takes the octets that came in, and answers each line that they end.
fn take(text: &mut Vec<u8>, line: &mut Incoming, octets: &[u8]) -> Result<(), AllocError> {
    for octet in octets {
        if line.push(*octet) {
            answer(text, line)?;
            line.next_line();
        }
    }
    Ok(())
}

fn main(rt: HostRuntime) -> anyhow::Result<()> {
    let mut stdin = rt.stdin();
    let mut text = Vec::new(rt.alloc());
    let mut line = Incoming::new(LIMIT);
    let mut buffer = [0; 65536];
    for _ in 0..u64::MAX {
        let count = stdin.read(&mut buffer)?;
        if count == 0 {
            break;
        }
        take(&mut text, &mut line, &buffer[..count])?;
        rt.stdout().write_all(&text)?;
        text.clear();
    }
    if line.has_begun() {
        answer(&mut text, &line)?;
    }
    rt.stdout().write_all(&text)?;
    Ok(())
}
