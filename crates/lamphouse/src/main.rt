//! Answers each line of standard input: closes one item at one node, or runs one node from the messages that it hears.
#![tactic(auto)]

mod begin;
mod cell;
mod heard;
mod kind;
mod parse;
mod post;
mod stop;
mod task;
mod text;

use begin::{begin_kind, begin_line};
use closing::Closed;
use heard::{check_step, hear_message, heard_octets, own_octets};
use kind::{Task, task_of};
use lines::Incoming;
use participant::Participant;
use post::Post;
use reading::bearing::Bearing;
use reading::lamp::Lamp;
use reading::{Kind, Reading};
use refusal::{Failure, Refusal};
use std::io;
use std::io::Read;
use stop::Stop;
use task::answer_line;
use text::CellText;

// Lines of 1 to 200 octets are taken.
const LIMIT: usize = 200;

// Prints what closing an item gave.
fn print_closed<R: Reading>(rt: &impl Print, number: u64, closed: Closed<R>) -> io::Result<()> {
    match closed {
        Closed::Polled { value } => {
            let text = CellText { cell: &value };
            println!(rt; "{number} value {text}")
        }
        Closed::Graded { value, grade, bit } => {
            let text = CellText { cell: &value };
            let bit = u8::from(bit);
            println!(rt; "{number} value {text} grade {grade} bit {bit}")
        }
        Closed::Voted { bit, decided } => {
            let bit = u8::from(bit);
            let word = if decided { "decided" } else { "undecided" };
            println!(rt; "{number} bit {bit} {word}")
        }
    }
}

// Prints why a line was refused.
fn print_refusal(rt: &impl Print, number: u64, refusal: Refusal) -> io::Result<()> {
    let why = refusal.number();
    println!(rt; "{number} refused {why}")
}

// Prints the message that a participant sends in the step in force, if it sends one.
fn print_message<R: Reading>(
    rt: &HostRuntime,
    number: u64,
    participant: &Participant<R>,
) -> Result<(), Stop> {
    let octets = match own_octets(rt.alloc(), participant) {
        Err(Failure::Refused(_)) => return Ok(()),
        octets => octets?,
    };
    print!(rt; "{number} message ")?;
    for octet in &octets {
        print!(rt; "{octet:02X}")?;
    }
    println!(rt; "")?;
    Ok(())
}

// Prints what a participant has decided, once it has decided all.
fn print_results<R: Reading>(
    rt: &HostRuntime,
    number: u64,
    participant: &Participant<R>,
) -> Result<(), Stop> {
    let Some(cells) = participant.results(rt.alloc())? else {
        return Ok(());
    };
    print!(rt; "{number} decided")?;
    for cell in &cells {
        let text = CellText { cell };
        print!(rt; " {text}")?;
    }
    println!(rt; "")?;
    Ok(())
}

// Begins a run by a line of this kind, and prints what the participant sends first.
fn begin_run<R: Reading>(
    rt: &HostRuntime,
    number: u64,
    line: &[u8],
) -> Result<Participant<R>, Stop> {
    let participant = begin_line::<R>(rt.alloc(), line)?;
    print_message(rt, number, &participant)?;
    Ok(participant)
}

// Begins a run by a line; a refused line leaves the run that there was. Each kind has its arm here and below: a type is chosen by naming it.
fn run_begin(
    rt: &HostRuntime,
    number: u64,
    line: &[u8],
    post: &mut Option<Post>,
) -> Result<(), Stop> {
    let begun = match begin_kind(line)? {
        Kind::Bearings => Post::Bearings(begin_run::<Bearing>(rt, number, line)?),
        Kind::Lamps => Post::Lamps(begin_run::<Lamp>(rt, number, line)?),
    };
    *post = Some(begun);
    Ok(())
}

// Lets a participant hear octets, and prints the number of what each call answered.
fn hear_octets<R: Reading>(
    rt: &HostRuntime,
    number: u64,
    octets: &[u8],
    participant: &mut Participant<R>,
) -> Result<(), Stop> {
    let answers = hear_message(rt.alloc(), participant, octets)?;
    print!(rt; "{number} heard")?;
    for answer in &answers {
        print!(rt; " {answer}")?;
    }
    println!(rt; "")?;
    Ok(())
}

// Hears the message of a line.
fn run_hear(
    rt: &HostRuntime,
    number: u64,
    line: &[u8],
    post: &mut Option<Post>,
) -> Result<(), Stop> {
    let octets = heard_octets(rt.alloc(), line)?;
    match post {
        None => Err(Stop::Refused(Refusal::OutOfTurn)),
        Some(Post::Bearings(participant)) => hear_octets(rt, number, &octets, participant),
        Some(Post::Lamps(participant)) => hear_octets(rt, number, &octets, participant),
    }
}

// Closes the step of a participant, and prints what it sends next and what it has decided.
fn close_step<R: Reading>(
    rt: &HostRuntime,
    number: u64,
    participant: &mut Participant<R>,
) -> Result<(), Stop> {
    participant.close()?;
    print_message(rt, number, participant)?;
    print_results(rt, number, participant)
}

// Closes the step by a line.
fn run_close(
    rt: &HostRuntime,
    number: u64,
    line: &[u8],
    post: &mut Option<Post>,
) -> Result<(), Stop> {
    check_step(line)?;
    match post {
        None => Err(Stop::Refused(Refusal::OutOfTurn)),
        Some(Post::Bearings(participant)) => close_step(rt, number, participant),
        Some(Post::Lamps(participant)) => close_step(rt, number, participant),
    }
}

// Closes one item by a line of this kind.
fn run_item<R: Reading>(rt: &HostRuntime, number: u64, line: &[u8]) -> Result<(), Stop> {
    let closed = answer_line::<R>(rt.alloc(), line)?;
    print_closed(rt, number, closed)?;
    Ok(())
}

// Does what the line that has come in asks for.
fn run_task(rt: &HostRuntime, line: &Incoming, post: &mut Option<Post>) -> Result<(), Stop> {
    let number = line.number();
    let octets = line.octets()?;
    match task_of(octets).ok_or(Refusal::StrangeLetter)? {
        Task::CloseItem(Kind::Bearings) => run_item::<Bearing>(rt, number, octets),
        Task::CloseItem(Kind::Lamps) => run_item::<Lamp>(rt, number, octets),
        Task::Begin => run_begin(rt, number, octets, post),
        Task::Hear => run_hear(rt, number, octets, post),
        Task::CloseStep => run_close(rt, number, octets, post),
    }
}

// Answers the line that has come in.
fn run_line(rt: &HostRuntime, line: &Incoming, post: &mut Option<Post>) -> anyhow::Result<()> {
    match run_task(rt, line, post) {
        Ok(()) => {}
        Err(Stop::Refused(refusal)) => print_refusal(rt, line.number(), refusal)?,
        Err(Stop::Ends(error)) => return Err(error),
    }
    Ok(())
}

// Takes the octets that came in, and answers each line that they end.
fn take(
    rt: &HostRuntime,
    line: &mut Incoming,
    post: &mut Option<Post>,
    octets: &[u8],
) -> anyhow::Result<()> {
    for octet in octets {
        if line.push(*octet) {
            run_line(rt, line, post)?;
            line.next_line();
        }
    }
    Ok(())
}

fn run(rt: &HostRuntime) -> anyhow::Result<()> {
    let mut stdin = rt.stdin();
    let mut line = Incoming::new(LIMIT);
    let mut post = None;
    let mut buffer = [0; 4096];
    for _ in 0..u64::MAX {
        let count = stdin.read(&mut buffer)?;
        if count == 0 {
            break;
        }
        take(rt, &mut line, &mut post, &buffer[..count])?;
    }
    if line.has_begun() {
        run_line(rt, &line, &mut post)?;
    }
    Ok(())
}

fn main(rt: HostRuntime) -> anyhow::Result<()> {
    run(&rt)
}
