//! One node's run: what it hears as messages, what it sends, and what it decides.
#![tactic(auto)]

mod begin;
mod calls;
mod results;
pub mod state;

pub use state::Participant;
