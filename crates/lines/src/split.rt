//! The fields of a line.
ghost use Rattle.std.specs.Prelude.{◌≡◌, ◌∷◌, length, drop, ⊤};
ghost use Rattle.lines.specs.Fields.{fields, fields_left, place_of, number_at, is_dash};
ghost use Rattle.lines.specs.Walk.{to_come};
ghost use Rattle.std.specs.Iterator.{YieldsFirstRef, item_count, MakesProgress};
ghost use Rattle.std.specs.Option.{option_map};
ghost use Rattle.std.specs.List.{slice_get};

use crate::cursor::Fields;
use crate::digits::decimal;

// How many fields a line has, parted at each octet `part`.
pub fn count_fields(line: &[u8], part: u8) -> usize
    ensures { result ≡ length (fields part line.now) }
{
    line.iter().filter(|octet| **octet == part).count() + 1
}

// The first field of a line, and what stands behind the octet `part` that ends it, if one does.
fn first_field(line: &[u8], part: u8) -> (&[u8], Option<&[u8]>)
    ensures { fields part line.now ≡ result.0.now ∷ fields_left part (option_map (λ r. r.now) result.1) }
{
    match line.iter().position(|octet| *octet == part) {
        Some(end) => (&line[..end], Some(&line[end + 1..])),
        None => (line, None),
    }
}

impl<'a> Fields<'a> {
    // The fields of a line, parted at each octet `part`.
    pub fn new(line: &'a [u8], part: u8) -> Fields<'a>
        ensures { to_come result ≡ fields part line.now }
    {
        Fields {
            rest: Some(line),
            part,
        }
    }
}

impl<'a> Iterator for Fields<'a> {
    type Item = &'a [u8];

    ghost next_gives = { YieldsFirstRef to_come };

    ghost remaining = { item_count to_come };

    // The next field, if there is one.
    fn next(&mut self) -> Option<&'a [u8]>
        ensures steps { YieldsFirstRef to_come self.old result self.new }
        ensures goes { MakesProgress (λ _. ⊤) (item_count to_come) self.old result self.new }
        ensures field { option_map (λ f. f.now) result ≡ slice_get (to_come self.old) 0 }
        ensures left { to_come self.new ≡ drop 1 (to_come self.old) }
    {
        let (field, rest) = first_field(self.rest?, self.part);
        self.rest = rest;
        Some(field)
    }
}

// The field at an index, counted from 0, if the line has one there.
pub fn field(line: &[u8], part: u8, index: usize) -> Option<&[u8]>
    ensures { option_map (λ f. f.now) result ≡ slice_get (fields part line.now) index }
{
    Fields::new(line, part).nth(index)
}

// The number in the field at an index, if the line has one there of one to five decimal digits.
pub fn number(line: &[u8], part: u8, index: usize) -> Option<usize>
    ensures { result ≡ number_at (fields part line.now) index }
{
    let number = decimal(field(line, part, index)?)?;
    Some(number as usize)
}

// Where the field at an index, counted from 0, begins in the line, if there is one.
pub fn field_place(line: &[u8], part: u8, index: usize) -> Option<usize>
    ensures { result ≡ place_of (fields part line.now) index }
{
    let mut walk = Fields::new(line, part);
    let mut place = 0;
    for _ in 0..index {
        place += walk.next()?.len() + 1;
    }
    walk.rest?;
    Some(place)
}

// Whether a field is a dash.
pub fn dash(field: &[u8]) -> bool
    ensures { result ≡ is_dash field.now }
{
    matches!(field, [b'-'])
}
