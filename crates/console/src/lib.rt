//! The lines that a harbour is run by: what a line asks for, and when it is in turn.
#![tactic(auto)]

mod commands;
mod fields;
mod letters;
mod parse;
mod turns;
pub mod types;

pub use letters::letter_of;
pub use parse::parse_line;
pub use reading::Kind;
pub use types::{Command, Letter, NoLetter, Turn};
