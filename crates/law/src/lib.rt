//! The law of the agreement over whole runs.
#![tactic(auto)]

ghost use Rattle.law.specs.Law.{Law};
ghost use Rattle.law.specs.Samples.{Samples};

use reading::Reading;

pub mod calls;

pub use calls::{Answer, Call, SetupCall, Told};

// Every run keeps to the law, for every kind of reading.
pub fn law_holds<R: Reading>()
    ensures { Law R.Reading.meaning }
{}

// Small runs answer as written there: the law's premises can be met.
pub fn samples_hold()
    ensures { Samples }
{}
