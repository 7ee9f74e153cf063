//! What a line asks for: `KIND n m HEX`.
use lines::{count_fields, dash, field, hex_octets, number};
use reading::Kind;
use refusal::Refusal;

// A message to be read: its kind, the sizes that the reader is told, and its octets.
#[derive(Clone, Copy)]
pub struct Task<'a> {
    pub kind: Kind,
    pub n: usize,
    pub m: usize,
    pub octets: &'a [u8],
}

// The kind that the first field names.
fn parse_kind(line: &[u8]) -> Option<Kind> {
    match field(line, b' ', 0)? {
        [letter] => Kind::try_from(*letter).ok(),
        _ => None,
    }
}

// The octets in the last field, written to `room`: a dash for none.
fn parse_octets<'a>(line: &[u8], room: &'a mut [u8]) -> Option<&'a [u8]> {
    let field = field(line, b' ', 3)?;
    if dash(field) {
        return Some(&[]);
    }
    let count = hex_octets(field, room)?;
    room.get(..count)
}

// The fields after the kind.
fn parse_fields<'a>(line: &[u8], kind: Kind, room: &'a mut [u8]) -> Option<Task<'a>> {
    let n = number(line, b' ', 1)?;
    let m = number(line, b' ', 2)?;
    let octets = parse_octets(line, room)?;
    Some(Task { kind, n, m, octets })
}

// What a line asks for, with the message's octets written to the front of `room`.
pub(crate) fn parse_task<'a>(line: &[u8], room: &'a mut [u8]) -> Result<Task<'a>, Refusal> {
    let kind = parse_kind(line).ok_or(Refusal::StrangeLetter)?;
    if count_fields(line, b' ') != 4 {
        return Err(Refusal::Torn);
    }
    parse_fields(line, kind, room).ok_or(Refusal::StrangeReading)
}
