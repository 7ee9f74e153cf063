//! The lines that come in, octet by octet.
ghost use Rattle.std.specs.Prelude.{◌≡◌, ◌==◌, if◌then◌else◌, min};
ghost use Rattle.lines.specs.Gathered.{line_answer, HasRoom};
ghost use Rattle.lines.specs.Coming.{line_of, before, took, next};
ghost use Rattle.std.specs.Result.{result_map_both};

use crate::gather::Line;
use refusal::Refusal;
use std::marker::Model;

// The line that is coming in, and its number.
#[derive(Drop)]
pub struct Incoming {
    number: u64,
    line: Line,
}

impl Model for Incoming {
    ghost use Rattle.lines.specs.Gathered.{begun, HasRoom};
    ghost use Rattle.lines.specs.Coming.{Coming};

    ghost Value = { Coming };

    ghost view = { λ i. record { number = i.number; limit = i.line.limit; octets = i.line.octets; begun = begun i.line.octets } };

    ghost invariant = { λ i. HasRoom i.line };
}

impl Incoming {
    // Line 1, of which nothing has come. No line has more than `limit` octets, and never more than 200.
    pub fn new(limit: usize) -> Incoming
        ensures { result ≡ before 1 (min limit 200) }
    {
        Incoming {
            number: 1,
            line: Line::new(limit),
        }
    }

    // Takes an octet, and says whether it ends the line. Octet 10 does, and is no part of the line.
    pub fn push(&mut self, octet: u8) -> bool
        ensures ends { result ≡ (octet == 10) }
        ensures line { self.new ≡ (if octet == 10 then self.old else took self.old octet) }
        ensures room { HasRoom (line_of self.new) }
    {
        // What is held finds room, also where nothing comes to it.
        let _ = &self.line;
        if octet == b'\n' {
            return true;
        }
        self.line.push(octet);
        false
    }

    // The line's number.
    pub fn number(&self) -> u64
        ensures { result ≡ self.now.number }
    {
        self.number
    }

    // The line's octets; an empty or over-long line is torn.
    pub fn octets(&self) -> Result<&[u8], Refusal>
        ensures answer { result_map_both (λ s. s.now) (λ e. e) result ≡ line_answer self.now.octets }
        ensures room { HasRoom (line_of self.now) }
    {
        self.line.octets()
    }

    // Whether an octet of the line has come.
    pub fn has_begun(&self) -> bool
        ensures { result ≡ self.now.begun }
    {
        self.line.has_begun()
    }

    // The next line is to come. Numbers wrap at 2^64.
    pub fn next_line(&mut self)
        ensures line { self.new ≡ before (next self.old.number) self.old.limit }
        ensures room { HasRoom (line_of self.new) }
    {
        self.number = self.number.wrapping_add(1);
        self.line.clear();
    }
}
