//! The text of a cell.
use super::cell::cell_octets;
use reading::Reading;
use std::fmt;

// A cell as it is printed.
#[derive(Clone, Copy)]
pub struct CellText<'a, R> {
    pub cell: &'a Option<R>,
}

// Writes a dash for none, or the reading's octets in hexadecimal.
impl<'a, R: Reading> fmt::Display for CellText<'a, R> {
    fn fmt<W: fmt::Write>(&self, f: &mut fmt::Formatter<W>) -> fmt::Result {
        let mut place = [0; 8];
        let octets = cell_octets(self.cell, &mut place);
        if octets.is_empty() {
            return f.write_str("-");
        }
        for octet in octets {
            write!(f, "{octet:02X}")?;
        }
        Ok(())
    }
}
