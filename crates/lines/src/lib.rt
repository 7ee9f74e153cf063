//! Lines of octets, their fields, and numbers written in decimal and hexadecimal.
//! Octet 10 ends a line; every other octet is an ordinary one.
#![tactic(auto)]

mod cursor;
mod digits;
mod gather;
mod hex;
mod incoming;
mod split;

pub use cursor::Fields;
pub use digits::{decimal, hex_word, hexadecimal};
pub use gather::Line;
pub use hex::{hex_digits, hex_octets};
pub use incoming::Incoming;
pub use split::{count_fields, dash, field, field_place, number};
