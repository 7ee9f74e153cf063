//! Where a desk stands.
ghost use Rattle.std.specs.Prelude.{◌≡◌};
ghost use Rattle.desk.specs.Desks.{turn_of};
ghost use Rattle.desk.specs.Views.{HasRoom};

use super::stage::{Desk, Stage};
use console::Turn;

impl<R> Desk<R> {
    // Where the run stands.
    pub fn turn(&self) -> Turn
        ensures turn { result ≡ turn_of self.now }
        ensures room { HasRoom self.now }
    {
        match self.stage {
            None => Turn::First,
            Some(Stage::Making(_)) => Turn::Setup,
            Some(Stage::Running(_)) => Turn::Running,
            Some(Stage::Ended(_)) => Turn::Ended,
        }
    }
}
