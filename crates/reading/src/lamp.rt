// What a lamp does.
ghost use Rattle.std.specs.Prelude.{◌≡◌};
ghost use Rattle.reading.specs.Lamps.{lamp_meaning, lamp_octets, lamp_reads};
ghost use Rattle.reading.specs.LampLaws.{lamp_back, lamp_whole};
ghost use Rattle.std.proofs.Common.{rules};

use super::Reading;
use super::period::Period;
use super::place::put;
use refusal::Refusal;

// No light, a steady light, or one that comes and goes with a period, in use or on standby.
#[derive(Clone, Copy, PartialEq, Eq, Debug)]
pub enum Lamp {
    Dark,
    Steady,
    Flashing(Period),
    Standby(Period),
}

impl Lamp {
    // The number that stands for what the lamp does.
    fn meaning(&self) -> u16
        ensures { result ≡ lamp_meaning self.now }
    {
        match self {
            Lamp::Dark => 0,
            Lamp::Steady => 1,
            Lamp::Flashing(period) => 1000 + period.tenths(),
            Lamp::Standby(period) => 2000 + period.tenths(),
        }
    }
}

impl Reading for Lamp {
    const WIDTH: usize = 3;

    ghost WIDTH = { 3 };

    ghost meaning = { lamp_meaning };

    ghost octets = { lamp_octets };

    ghost reads = { lamp_reads };

    ghost narrow = { Prim.search rules };

    ghost long = { Prim.search rules };

    ghost back = { λ l. lamp_back l };

    ghost whole = { λ o l b e. lamp_whole o l b e };

    fn same(&self, other: &Lamp) -> bool {
        self.meaning() == other.meaning()
    }

    fn write(&self, out: &mut [u8]) -> Result<(), Refusal> {
        let (tag, tenths) = match self {
            Lamp::Dark => (0, 0),
            Lamp::Steady => (1, 0),
            Lamp::Flashing(period) => (2, period.tenths()),
            Lamp::Standby(period) => (3, period.tenths()),
        };
        let [high, low] = tenths.to_be_bytes();
        put(&[tag, high, low], out)
    }

    fn read(from: &[u8]) -> Result<Lamp, Refusal> {
        let [tag, high, low] = from else {
            return Err(Refusal::StrangeReading);
        };
        let tenths = u16::from_be_bytes([*high, *low]);
        match *tag {
            0 if tenths == 0 => Ok(Lamp::Dark),
            1 if tenths == 0 => Ok(Lamp::Steady),
            2 if (1..=600).contains(&tenths) => Ok(Lamp::Flashing(Period::within(tenths))),
            3 if (1..=600).contains(&tenths) => Ok(Lamp::Standby(Period::within(tenths))),
            _ => Err(Refusal::StrangeReading),
        }
    }
}
