//! Plays scripts, and prints what was decided, when, and whether the answers agree.
#![tactic(auto)]

mod fixed;
mod generate;
mod random;
mod show;
mod stage;
mod tally;

use coin::{Coin, Crossed, Seeded, Strip};
use generate::{Pick, generate};
use law::Answer;
use random::Random;
use reading::bearing::Bearing;
use reading::lamp::Lamp;
use show::{print_found, print_refusals, print_summary};
use stage::{Script, perform};
use tally::{Tally, tally_up};

// How many scripts are generated.
const GENERATED: u64 = 50;

// Plays a script and prints its line. Gives its answers, and what they come to.
fn run_line<R: Pick, C: Coin>(
    rt: &HostRuntime,
    name: &str,
    script: &Script<R>,
    coin: &C,
) -> anyhow::Result<(Vec<Answer<R>>, Tally<R>)> {
    let heap = rt.alloc();
    let answers = perform(heap, script, coin)?;
    let tally = tally_up(heap, script, &answers)?;
    print_summary(rt, name, R::kind(), script, &tally)?;
    Ok((answers, tally))
}

// Plays a written script of bearings under a strip with one entry, and prints all that it refused and decided.
fn run_fixed(
    rt: &HostRuntime,
    name: &str,
    entry: u16,
    script: &Script<Bearing>,
) -> anyhow::Result<()> {
    let entries = [entry];
    let (answers, tally) = run_line(rt, name, script, &Strip::new(&entries)?)?;
    print_refusals(rt, script, &answers)?;
    print_found(rt, &tally)?;
    Ok(())
}

// Generates a script from a seed and plays it, under a coin that tosses alike or one that does not.
fn run_generated<R: Pick>(rt: &HostRuntime, seed: u64) -> anyhow::Result<()> {
    let heap = rt.alloc();
    let mut random = Random::new(seed);
    let script = generate::<R>(heap, &mut random)?;
    let coin = Seeded::new(random.next());
    let name = format!(in heap; "{seed}")?;
    if seed % 4 == 3 {
        run_line(rt, &name, &script, &Crossed::new(coin))?;
    } else {
        run_line(rt, &name, &script, &coin)?;
    }
    Ok(())
}

fn run(rt: &HostRuntime) -> anyhow::Result<()> {
    let heap = rt.alloc();
    run_fixed(rt, "repeated", 0, &fixed::repeated(heap)?)?;
    run_fixed(rt, "divided", 0, &fixed::divided(heap)?)?;
    run_fixed(rt, "endless", 1, &fixed::endless(heap)?)?;
    run_fixed(rt, "final", 0, &fixed::kept_final(heap)?)?;
    for seed in 1..=GENERATED {
        if seed % 2 == 1 {
            run_generated::<Bearing>(rt, seed)?;
        } else {
            run_generated::<Lamp>(rt, seed)?;
        }
    }
    Ok(())
}

fn main(rt: HostRuntime) -> anyhow::Result<()> {
    run(&rt)
}
