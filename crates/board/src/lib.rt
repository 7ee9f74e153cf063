//! The table of nodes and the lent boards.
#![tactic(auto)]

pub mod grid;
mod list;
mod looks;
mod marks;
mod sends;
mod setup;
pub mod states;
mod table;

pub use grid::Grid;
pub use states::{Decision, Node, Table};
