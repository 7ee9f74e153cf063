//! Messages between the nodes: one that came in is delivered to an instance, and an honest node's own is written.
#![tactic(auto)]

mod incoming;
mod outgoing;

pub use incoming::deliver;
pub use outgoing::own_message;
