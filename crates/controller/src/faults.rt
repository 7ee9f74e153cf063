//! The faults of calls on messages, as a caller is told them.
ghost use Rattle.std.specs.Prelude.{◌≡◌};
ghost use Rattle.refusal.specs.Refusals.{number};
ghost use Rattle.controller.specs.Answers.{told_fault};

use crate::types::MessageFault;
use refusal::Fault;

// A fault, as a caller is told it.
impl From<Fault> for MessageFault {
    ghost from_gives = { λ f r. r ≡ told_fault f };

    fn from(found: Fault) -> MessageFault {
        MessageFault {
            place: found.place,
            number: found.refusal.number(),
            layer: found.layer.number(),
        }
    }
}

// Tells a caller a fault, and answers its number.
pub(crate) fn tell(found: Fault, fault: &mut MessageFault) -> u8
    ensures answer { result ≡ number found.refusal }
    ensures after { fault.new ≡ told_fault found }
{
    *fault = MessageFault::from(found);
    found.refusal.number()
}
