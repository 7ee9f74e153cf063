//! Kinds of reading: what a kind owes, and the kinds there are.
#![tactic(auto)]

ghost use Rattle.std.specs.Prelude.{◌≡◌, ℕ, ◌<◌, ◌≤◌, List, length, Some, Option, ◌==◌, slice_index};
ghost use Rattle.std.specs.Option.{ok_or};
ghost use Rattle.refusal.specs.declared.Refusal.TheVariants.{StrangeReading};
ghost use Rattle.refusal.specs.Refusals.{answered};
ghost use Rattle.reading.specs.Octets.{room, placed};
ghost use Rattle.reading.specs.Trips.{RoundTrips};

use refusal::Refusal;

pub mod bearing;
pub mod kind;
pub mod lamp;
pub mod period;
mod place;

pub use kind::Kind;

// A kind of reading: values that have a meaning and are written as octets.
pub trait Reading: Copy {
    // How many octets a reading of the kind takes, 1 to 8.
    const WIDTH: usize;

    // The same number, for clauses.
    ghost WIDTH: { ℕ };

    // Two readings are the same where their meanings are equal.
    ghost meaning: { Self → ℕ };

    // The octets that a reading is written as.
    ghost octets: { Self → List ℕ };

    // The reading that is written as these octets, if there is one.
    ghost reads: { List ℕ → Option Self };

    // Whether two readings have one meaning.
    fn same(&self, other: &Self) -> bool
        ensures { result ≡ (meaning self.now == meaning other.now) };

    // Writes the reading's octets at the front of a place. One that is too short is refused and left alone.
    fn write(&self, out: &mut [u8]) -> Result<(), Refusal>
        ensures answer { result ≡ answered (room WIDTH out.old) tt }
        ensures after { out.new ≡ placed WIDTH (octets self.now) out.old };

    // The reading that these octets are, all of them. Any others are strange.
    fn read(from: &[u8]) -> Result<Self, Refusal>
        ensures { result ≡ ok_or (reads from.now) StrangeReading };

    ghost narrow: { (1 ≤ WIDTH) × (WIDTH ≤ 8) };

    ghost long: { (r : Self) → length (octets r) ≡ WIDTH };

    ghost back: { (r : Self) → reads (octets r) ≡ Some r };

    ghost whole: { (o : List ℕ) (r : Self) → ((i : ℕ) → slice_index o i < 256) → reads o ≡ Some r → octets r ≡ o };
}

// What is written reads back unchanged, and octets that are read are those that the reading writes, in every kind.
pub fn round_trips<R: Reading>()
    ensures { RoundTrips R.WIDTH R.octets R.reads }
{}
