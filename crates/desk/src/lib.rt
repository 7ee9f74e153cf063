//! A run at a desk: the commands of lines, made on the agreement with boards and a strip of its own.
#![tactic(auto)]

mod make;
mod rows;
mod run;
pub mod stage;
mod turns;

pub use stage::{Desk, Reply, Stage};
