//! What is printed of a script.
use super::stage::Script;
use super::tally::Tally;
use law::{Answer, Call};
use reading::Reading;
use std::{fmt, io};

// Prints the line of a script: its sizes, and what its answers come to.
pub fn print_summary<R: Reading>(
    rt: &impl Print,
    name: &str,
    kind: &str,
    script: &Script<R>,
    tally: &Tally<R>,
) -> io::Result<()> {
    let n = script.n;
    let m = script.m;
    let t = tally.faulty;
    let calls = script.setup.len().saturating_add(script.calls.len());
    let refused = tally.refused;
    let step = tally.step;
    let decided = tally.everywhere(n, m);
    let word = if tally.agree { "agree" } else { "DISAGREE" };
    println!(rt;
        "{name}: {kind} n {n} m {m} t {t} calls {calls} refused {refused} step {step} decided {decided} {word}"
    )
}

// Prints each refusal of a call on the instance, with the step in force.
pub fn print_refusals<R: Reading>(
    rt: &impl Print,
    script: &Script<R>,
    answers: &[Answer<R>],
) -> io::Result<()> {
    // The step in force is printed with each refusal on the way, so it is counted in the loop.
    let mut step: usize = 1;
    let rest = answers.iter().skip(script.setup.len());
    for (call, answer) in script.calls.iter().zip(rest) {
        match (call, answer) {
            (call, Err(refusal)) => {
                let word = call_word(call);
                let number = refusal.number();
                println!(rt; "  step {step}: {word} refused {number}")?;
            }
            (Call::Close, Ok(_)) => step = step.saturating_add(1),
            _ => {}
        }
    }
    Ok(())
}

// The name of a call.
fn call_word<R>(call: &Call<R>) -> &'static str {
    match call {
        Call::SendValue { .. } => "send_value",
        Call::SendBit { .. } => "send_bit",
        Call::SendFinal { .. } => "send_final",
        Call::Close => "close",
        Call::Decision { .. } => "decision",
        Call::Undecided { .. } => "undecided",
    }
}

// Prints each decision that was found, with the step after which it was.
pub fn print_found<R: Reading>(rt: &impl Print, tally: &Tally<R>) -> io::Result<()> {
    for found in &tally.found {
        let node = found.node;
        let item = found.item;
        let cell = CellText(&found.cell);
        let step = found.step.saturating_sub(1);
        println!(rt; "  node {node} item {item}: {cell} after step {step}")?;
    }
    Ok(())
}

// A cell as text: none, or its octets in hexadecimal.
#[derive(Drop)]
struct CellText<'a, R>(&'a Option<R>);

impl<'a, R: Reading> fmt::Display for CellText<'a, R> {
    fn fmt<W: fmt::Write>(&self, f: &mut fmt::Formatter<W>) -> fmt::Result {
        let Some(reading) = self.0 else {
            return f.write_str("none");
        };
        let mut octets = [0; 8];
        let _ = reading.write(&mut octets);
        for octet in octets.iter().take(R::WIDTH) {
            write!(f, "{octet:02X}")?;
        }
        Ok(())
    }
}
