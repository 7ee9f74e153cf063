//! One node's closing of one item by itself.
ghost use Rattle.std.specs.Prelude.{◌≡◌, ◌≤◌, length, take, Some};
ghost use Rattle.closing.specs.Closings.{closed, heard_count, item_answer, state_of, step_of};
ghost use Rattle.closing.specs.Soundings.{Soundings};

use super::counting::{quorum, weak_quorum};
use super::hearing::Heard;
use super::steps::close_heard;
use super::types::{Closed, ItemClose, ItemState, Phase, Step};
use coin::Coin;
use reading::Reading;
use refusal::Refusal;

// How much was heard of what a step of this phase needs; outside the steps nothing is needed, which n stands for.
fn count_heard(phase: Option<Phase>, n: usize, cells: usize, marks: usize) -> usize
    ensures { result ≡ heard_count phase n cells marks }
{
    phase.map_or(n, |phase| if phase.sends_cells() { cells } else { marks })
}

// The step of this phase that an item is closed in, with the thresholds of n nodes.
fn step_of(close: &ItemClose, phase: Phase) -> Step
    ensures { result ≡ step_of close.now phase }
{
    Step {
        phase,
        round: close.step / 3,
        quorum: quorum(close.n),
        weak_quorum: weak_quorum(close.n),
    }
}

// How the node stands with the item.
fn state_of(close: &ItemClose) -> ItemState
    ensures { result ≡ state_of close.now }
{
    ItemState {
        node: close.node,
        item: close.item,
        bit: close.bit == 1,
        decided: close.decided,
    }
}

// Closes one item at one node, from what n nodes sent: cells in steps 1 and 2, marks later. It looks only at those that its step needs.
pub fn close_item<'a, R: Reading, C: Coin>(
    close: ItemClose,
    coin: &C,
    cells: &'a [Option<R>],
    marks: &'a [u8],
) -> Result<Closed<R>, Refusal>
    ensures { result ≡ item_answer R.Reading.meaning (C.Coin.tosses coin.now) close cells.now marks.now }
{
    let n = close.n;
    if !(1..=16).contains(&n) {
        return Err(Refusal::BadSize);
    }
    let phase = Phase::of_step(close.step);
    if count_heard(phase, n, cells.len(), marks.len()) < n {
        return Err(Refusal::Short);
    }
    if close.node >= n {
        return Err(Refusal::NoNode);
    }
    if close.item > 15 {
        return Err(Refusal::NoItem);
    }
    if close.bit > 1 {
        return Err(Refusal::WrongPhase);
    }
    let phase = phase.ok_or(Refusal::Over)?;
    let heard = Heard {
        cells: &cells[..n.min(cells.len())],
        marks: &marks[..n.min(marks.len())],
    };
    Ok(close_heard(&step_of(&close, phase), &state_of(&close), coin, &heard))
}

// The worked cases of the meanings and of the closings hold.
pub fn soundings_hold()
    ensures { Soundings }
{}
