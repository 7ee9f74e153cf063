//! What the honest nodes hear, and what the close of a step makes of the table and the boards.
#![tactic(auto)]

pub mod close;
mod ear;
mod scene;

pub use close::{boards_fit, close_step};
