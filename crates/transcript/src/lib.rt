//! A whole run as text: the octets that come in, and the text that answers them.
//! The heap and the text are passed as two: what allocates is passed the heap, and the text is the caller's, who empties it between calls.
#![tactic(auto)]

mod answers;
mod harbour;
mod rows;
mod run;
pub mod types;
mod whole;

pub use answers::answer_line;
pub use rows::write_rows;
pub use run::answer_run;
pub use types::{Harbour, Run};
pub use whole::{transcribe, transcribe_parts};
