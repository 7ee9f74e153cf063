//! One node's closing of one item: counting what was heard, grading it, and deciding.
#![tactic(auto)]

pub mod counting;
pub mod hearing;
pub mod item;
pub mod marks;
pub mod steps;
pub mod types;

pub use types::{Closed, ItemClose, ItemState, Mark, Phase, Step};
