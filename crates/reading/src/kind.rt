//! The kinds of reading by name.
ghost use Rattle.reading.specs.Kinds.{Named};

// The kinds of reading that there are.
#[derive(Clone, Copy, PartialEq, Eq, Debug)]
pub enum Kind {
    Bearings,
    Lamps,
}

// A letter that no kind of reading has.
#[derive(Clone, Copy, PartialEq, Eq, Debug)]
pub struct NoKind;

// The kind of a letter: B or L.
impl TryFrom<u8> for Kind {
    type Error = NoKind;

    ghost try_from_gives = { Named };

    fn try_from(letter: u8) -> Result<Kind, NoKind> {
        match letter {
            b'B' => Ok(Kind::Bearings),
            b'L' => Ok(Kind::Lamps),
            _ => Err(NoKind),
        }
    }
}
