//! Runs one agreement from the lines of standard input, and writes what they answer.
#![tactic(auto)]

use std::io::{Read, Write};
use std::process::ExitCode;
use transcript::Harbour;

// Reads what there is, answers the lines in it, and writes their answers before it waits for more.
fn run(rt: &HostRuntime) -> anyhow::Result<()> {
    let heap = rt.alloc();
    let mut stdin = rt.stdin();
    let mut harbour = Harbour::new();
    let mut text = Vec::new(heap);
    let mut buffer = [0; 65536];
    for _ in 0..u64::MAX {
        let count = stdin.read(&mut buffer)?;
        if count == 0 {
            break;
        }
        harbour.feed(heap, &buffer[..count], &mut text)?;
        rt.stdout().write_all(&text)?;
        text.clear();
    }
    harbour.finish(heap, &mut text)?;
    rt.stdout().write_all(&text)?;
    Ok(())
}

// A run that could not read or write ends with status 1, and says nothing.
fn main(rt: HostRuntime) -> ExitCode {
    match run(&rt) {
        Ok(()) => ExitCode::SUCCESS,
        Err(_) => ExitCode::FAILURE,
    }
}
