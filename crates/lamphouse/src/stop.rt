//! Why a line has no answer.
ghost use Rattle.std.specs.Prelude.{◌≡◌, true};
ghost use Rattle.lamphouse.specs.Stops.{ends, Stops};
ghost use Rattle.lamphouse.specs.declared.stop.Stop.TheVariants.{Refused};

use refusal::{Failure, Refusal};
use std::alloc::AllocError;
use std::io;

// Why a line has no answer: it was refused, or the program ends.
#[derive(Drop)]
pub enum Stop {
    Refused(Refusal),
    Ends(anyhow::Error),
}

impl From<Refusal> for Stop {
    ghost from_gives = { λ refusal stop. stop ≡ Refused refusal };

    fn from(refusal: Refusal) -> Stop {
        Stop::Refused(refusal)
    }
}

impl From<AllocError> for Stop {
    ghost from_gives = { λ _ stop. ends stop ≡ true };

    fn from(error: AllocError) -> Stop {
        Stop::Ends(error.into())
    }
}

impl From<Failure> for Stop {
    ghost from_gives = { Stops };

    fn from(failure: Failure) -> Stop {
        match failure {
            Failure::Refused(refusal) => Stop::Refused(refusal),
            Failure::OutOfMemory => Stop::Ends(AllocError.into()),
        }
    }
}

impl From<io::Error> for Stop {
    ghost from_gives = { λ _ stop. ends stop ≡ true };

    fn from(error: io::Error) -> Stop {
        Stop::Ends(error.into())
    }
}
