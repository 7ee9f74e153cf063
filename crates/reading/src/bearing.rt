// A compass bearing: any two octets, where whole turns do not count.
ghost use Rattle.std.specs.Prelude.{◌≡◌, Some};
ghost use Rattle.std.proofs.Common.{sym, ap, ◌∙◌, rules};
ghost use Rattle.reading.specs.Bearings.{bearing_meaning, bearing_octets, bearing_reads};
ghost use Rattle.reading.specs.declared.bearing.Bearing.{Bearing};
ghost use Rattle.reading.specs.Octets.{pair_at};
ghost use Rattle.reading.specs.OctetLaws.{exactly_some, pair_whole};

use super::Reading;
use super::place::put;
use refusal::Refusal;

// A direction in hundredths of a degree, 0 to 65,535.
#[derive(Clone, Copy, PartialEq, Eq, Debug)]
pub struct Bearing {
    hundredths: u16,
}

impl Bearing {
    // The bearing of so many hundredths of a degree.
    pub fn new(hundredths: u16) -> Bearing
        ensures { result ≡ record { hundredths = hundredths } }
    {
        Bearing { hundredths }
    }

    // The hundredths of a degree that it was made of, whole turns included.
    pub fn hundredths(&self) -> u16
        ensures { result ≡ self.now.hundredths }
    {
        self.hundredths
    }

    // The hundredths of a degree without whole turns.
    fn meaning(&self) -> u16
        ensures { result ≡ bearing_meaning self.now }
    {
        let Bearing { hundredths } = *self;
        hundredths % 36000
    }
}

impl Reading for Bearing {
    const WIDTH: usize = 2;

    ghost WIDTH = { 2 };

    ghost meaning = { bearing_meaning };

    ghost octets = { bearing_octets };

    ghost reads = { bearing_reads };

    ghost narrow = { Prim.search rules };

    ghost long = { Prim.search rules };

    ghost back = { Prim.search rules };

    ghost whole = { λ o r b e.
        let h = exactly_some 2 o (Some (record { hundredths = pair_at o 0 })) r e in
        let made : ◌≡◌ {A = Bearing} (record { hundredths = pair_at o 0 }) r = cc h.1 in
        ap bearing_octets (sym made) ∙ pair_whole o h.0 (b 1) };

    fn same(&self, other: &Bearing) -> bool {
        self.meaning() == other.meaning()
    }

    fn write(&self, out: &mut [u8]) -> Result<(), Refusal> {
        put(&self.hundredths.to_be_bytes(), out)
    }

    fn read(from: &[u8]) -> Result<Bearing, Refusal> {
        match from {
            [high, low] => Ok(Bearing::new(u16::from_be_bytes([*high, *low]))),
            _ => Err(Refusal::StrangeReading),
        }
    }
}
