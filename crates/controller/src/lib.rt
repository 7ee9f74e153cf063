//! Calls for controllers that are written in C or Rust: numbers, octets and structs in C's layout cross, and nothing is allocated.
#![tactic(auto)]

mod cells;
pub mod close;
mod faults;
pub mod read;
mod strips;
pub mod types;
pub mod words;
pub mod write;
