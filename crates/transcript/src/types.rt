//! A run of either kind, and the state of a harbour between two octets.
use desk::Desk;
use lines::Incoming;
use reading::bearing::Bearing;
use reading::lamp::Lamp;
use std::marker::Model;

// A run that was made: a desk of a kind.
#[derive(Drop)]
pub enum Run {
    Bearings(Desk<Bearing>),
    Lamps(Desk<Lamp>),
}

// A harbour: the line that is coming in, and the run, if one is made.
#[derive(Drop)]
pub struct Harbour {
    pub(crate) incoming: Incoming,
    pub(crate) run: Option<Run>,
}

impl Model for Harbour {
    ghost use Rattle.std.specs.Prelude.{◌≡◌, ◌≤◌, length, IfSome};
    ghost use Rattle.transcript.specs.Runs.{standing};
    ghost use Rattle.transcript.specs.Harbours.{View, seen};

    ghost Value = { View };

    ghost view = { λ h. seen h.incoming (standing h.run) };

    ghost invariant = { λ h. (h.incoming.limit ≡ 60) × IfSome h.incoming.octets (λ os. length os ≤ 60) };
}
