//! Where in a run each line is in turn.
ghost use Rattle.std.specs.Prelude.{◌≡◌};
ghost use Rattle.console.specs.Turns.{in_turn};

use crate::types::{Letter, Turn};

impl Turn {
    // Whether a letter's line is in turn here.
    pub fn takes(self, letter: Letter) -> bool
        ensures { result ≡ in_turn self letter }
    {
        match letter {
            Letter::Make => matches!(self, Turn::First),
            Letter::Faulty | Letter::Propose | Letter::Strip | Letter::Open => {
                matches!(self, Turn::Setup)
            }
            Letter::Value | Letter::Bit | Letter::Final | Letter::Close | Letter::End => {
                matches!(self, Turn::Running)
            }
            Letter::Look => matches!(self, Turn::Running | Turn::Ended),
        }
    }
}
