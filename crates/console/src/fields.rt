//! The fields of a line, each read as what it stands for.
ghost use Rattle.std.specs.Prelude.{◌≡◌, ℕ, ◌≤◌, List, Option, IfOk, IfSome};
ghost use Rattle.std.specs.List.{slice_get};
ghost use Rattle.std.specs.Option.{option_map};
ghost use Rattle.console.specs.Grammar.{kind_in, bit_in, field_at, number_at, kind_at, bit_at, entry_at, entries_of, cell_at};
ghost use Rattle.console.specs.Spots.{passed};
ghost use Rattle.lines.specs.Digits.{decimal_of, hex_word_of};
ghost use Rattle.lines.specs.Fields.{fields};
ghost use Rattle.spelling.specs.Cells.{cell_in};

use lines::{Fields, decimal, field_place, hex_word};
use reading::Kind;
use refusal::{Fault, Layer, Refusal};
use spelling::{Spelled, parse_cell};
use std::marker::Model;

// What a field of a line can be read as.
pub trait Parse: Sized {
    ghost parses: { List ℕ → Option Self };

    fn parse(field: &[u8]) -> Option<Self>
        ensures { result ≡ parses field.now };
}

// A number: one to five decimal digits.
impl Parse for usize {
    ghost parses = { decimal_of };

    fn parse(field: &[u8]) -> Option<usize> {
        decimal(field).map(|number| number as usize)
    }
}

// A bit: a number, where one that does not fit an octet is 255, which is above 1 all the same.
impl Parse for u8 {
    ghost parses = { bit_in };

    fn parse(field: &[u8]) -> Option<u8> {
        decimal(field).map(|number| number.min(255) as u8)
    }
}

// An entry of a strip: four hexadecimal digits.
impl Parse for u16 {
    ghost parses = { hex_word_of };

    fn parse(field: &[u8]) -> Option<u16> {
        hex_word(field)
    }
}

// A kind of reading: B or L.
impl Parse for Kind {
    ghost parses = { kind_in };

    fn parse(field: &[u8]) -> Option<Kind> {
        match field {
            [letter] => Kind::try_from(*letter).ok(),
            _ => None,
        }
    }
}

// A cell: a dash for none, or a reading.
impl<R: Spelled> Parse for Option<R> {
    ghost parses = { cell_in R.Spelled.parses };

    fn parse(field: &[u8]) -> Option<Option<R>> {
        parse_cell(field)
    }
}

// A walk over the fields of a line: the next one stands at `index`.
#[derive(Drop)]
pub(crate) struct Walk<'a> {
    rest: Fields<'a>,
    line: &'a [u8],
    index: usize,
}

impl<'a> Model for Walk<'a> {
    ghost use Rattle.std.specs.Prelude.{◌≡◌, drop};
    ghost use Rattle.console.specs.Spots.{Spot};
    ghost use Rattle.lines.specs.Fields.{fields};
    ghost use Rattle.lines.specs.Walk.{to_come};

    ghost Value = { Spot };

    ghost view = { λ w. record { fields = fields 32 w.line.now; index = w.index } };

    ghost invariant = { λ w. to_come w.rest ≡ drop w.index (fields 32 w.line.now) };
}

impl<'a> Walk<'a> {
    // The walk over the fields that follow the letter.
    pub(crate) fn after_letter(line: &'a [u8]) -> Walk<'a>
        ensures { result ≡ record { fields = fields 32 line.now; index = 1 } }
    {
        let mut rest = Fields::new(line, b' ');
        let _ = rest.next();
        Walk {
            rest,
            line,
            index: 1,
        }
    }

    // The next field, if there is one.
    fn next(&mut self) -> Option<&'a [u8]>
        ensures field { option_map (λ f. f.now) result ≡ slice_get self.old.fields self.old.index }
        ensures walk { IfSome result (λ _. self.new ≡ passed self.old) }
    {
        let field = self.rest.next()?;
        self.index += 1;
        Some(field)
    }

    // What the next field is read as. A field that is read as nothing is strange to the layer, where it begins.
    fn read<T: Parse>(&mut self, layer: Layer) -> Result<T, Fault>
        ensures value { result ≡ field_at T.Parse.parses layer self.old.fields self.old.index }
        ensures walk { IfOk result (λ _. self.new ≡ passed self.old) }
    {
        let line = self.line;
        let index = self.index;
        if let Some(field) = self.next() {
            if let Some(value) = T::parse(field) {
                return Ok(value);
            }
        }
        Err(Fault {
            refusal: Refusal::StrangeReading,
            layer,
            place: field_place(line, b' ', index).unwrap_or(0),
        })
    }

    // The number in the next field.
    pub(crate) fn number(&mut self) -> Result<usize, Fault>
        ensures value { result ≡ number_at self.old.fields self.old.index }
        ensures walk { IfOk result (λ _. self.new ≡ passed self.old) }
    {
        self.read(Layer::Line)
    }

    // The kind of reading in the next field.
    pub(crate) fn kind(&mut self) -> Result<Kind, Fault>
        ensures value { result ≡ kind_at self.old.fields self.old.index }
        ensures walk { IfOk result (λ _. self.new ≡ passed self.old) }
    {
        self.read(Layer::Line)
    }

    // The strip entry in the next field.
    fn entry(&mut self) -> Result<u16, Fault>
        ensures value { result ≡ entry_at self.old.fields self.old.index }
        ensures walk { IfOk result (λ _. self.new ≡ passed self.old) }
    {
        self.read(Layer::Line)
    }

    // The entries of a strip in the next fields, so many, and zeros after them.
    pub(crate) fn entries(&mut self, count: usize) -> Result<[u16; 8], Fault>
        requires few { count ≤ 8 }
        requires first { self.old.index ≡ 1 }
        ensures { result ≡ entries_of self.old.fields count }
    {
        let mut entries = [0; 8];
        for entry in entries[..count].iter_mut() {
            *entry = self.entry()?;
        }
        Ok(entries)
    }

    // The bit in the next field.
    pub(crate) fn bit(&mut self) -> Result<u8, Fault>
        ensures value { result ≡ bit_at self.old.fields self.old.index }
        ensures walk { IfOk result (λ _. self.new ≡ passed self.old) }
    {
        self.read(Layer::Line)
    }

    // The cell in the next field.
    pub(crate) fn cell<R: Spelled>(&mut self) -> Result<Option<R>, Fault>
        ensures value { result ≡ cell_at R.Spelled.parses self.old.fields self.old.index }
        ensures walk { IfOk result (λ _. self.new ≡ passed self.old) }
    {
        self.read(Layer::Kind)
    }
}
