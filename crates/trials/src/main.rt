//! Runs stored cases: each input is fed to a harbour, and the text that answers it is compared with the stored one.
#![tactic(auto)]

mod compare;
mod trial;

use std::alloc::Global;
use std::{env, fs};
use trial::compare;

// Runs the case of a name, and prints whether it differs.
fn run_case(rt: &HostRuntime, heap: Global, name: &str) -> anyhow::Result<()> {
    let input = fs::read(rt, format!(in heap; "{name}.in")?)?;
    let expected = fs::read(rt, format!(in heap; "{name}.out")?)?;
    match compare(heap, &input, &expected)? {
        None => println!(rt; "{name} ok")?,
        Some(place) => println!(rt; "{name} differs at octet {place}")?,
    }
    Ok(())
}

// Runs the cases that the arguments name.
fn run(rt: &HostRuntime) -> anyhow::Result<()> {
    let heap = rt.alloc();
    for name in env::args(rt)?.skip(1) {
        run_case(rt, heap, &name)?;
    }
    Ok(())
}

fn main(rt: HostRuntime) -> anyhow::Result<()> {
    run(&rt)
}
