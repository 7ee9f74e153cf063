// How a period is made and read off.
ghost use Rattle.std.specs.Prelude.{◌≡◌, ◌≤◌, Some};
ghost use Rattle.std.specs.Option.{ok_or};
ghost use Rattle.refusal.specs.declared.Refusal.TheVariants.{StrangeReading};
ghost use Rattle.reading.specs.Periods.{period_of};

use super::Period;
use refusal::Refusal;

impl Period {
    // The period of so many tenths, if they are 1 to 600.
    pub fn new(tenths: u16) -> Result<Period, Refusal>
        ensures { result ≡ ok_or (period_of tenths) StrangeReading }
    {
        if (1..=600).contains(&tenths) {
            Ok(Period::within(tenths))
        } else {
            Err(Refusal::StrangeReading)
        }
    }

    // The period of so many tenths, for a caller that has seen to their range.
    pub(crate) fn within(tenths: u16) -> Period
        requires { (1 ≤ tenths) × (tenths ≤ 600) }
        ensures { period_of tenths ≡ Some result }
    {
        Period { tenths }
    }

    // The tenths of a second.
    pub fn tenths(&self) -> u16
        ensures { result ≡ self.now.tenths }
    {
        self.tenths
    }
}
