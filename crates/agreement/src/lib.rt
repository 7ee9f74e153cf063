//! One run of the agreement: its states and the calls on them.
#![tactic(auto)]

mod close;
mod looks;
mod phase;
mod sending;
mod sends;
mod setup;
pub mod states;

pub use board::Decision;
pub use states::{Instance, Outcome, Setup};
