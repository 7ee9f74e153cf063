//! The run that the lines are about.
use participant::Participant;
use reading::bearing::Bearing;
use reading::lamp::Lamp;

// The run of one node, of either kind.
#[derive(Drop)]
pub enum Post {
    Bearings(Participant<Bearing>),
    Lamps(Participant<Lamp>),
}
