//! The faults that the layer of messages finds.
ghost use Rattle.std.specs.Prelude.{◌≡◌};
ghost use Rattle.wire.specs.Faults.{in_message, bad_size};

use refusal::{Fault, Layer, Refusal};

// A fault of a message at a place.
pub fn in_message(refusal: Refusal, place: usize) -> Fault
    ensures { result ≡ in_message refusal place }
{
    Fault {
        refusal,
        layer: Layer::Message,
        place,
    }
}

// Whether a number of nodes or of items is out of range.
pub fn out_of_range(n: usize) -> bool
    ensures { result ≡ bad_size n }
{
    !(1..=16).contains(&n)
}
