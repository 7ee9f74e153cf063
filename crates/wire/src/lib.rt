//! The octets that nodes exchange, read and written.
#![tactic(auto)]

mod bits;
mod faults;
mod items;
mod letters;
pub mod looks;
pub mod message;
pub mod read;
pub mod trips;
pub mod write;

pub use faults::{in_message, out_of_range};
pub use items::{check_cells, read_cell, read_item, stride, write_cell};
pub use message::{BitLetter, CellLetter, Head, Letter, Message, NoLetter};
