//! Gathering octets into a line.
ghost use Rattle.std.specs.Prelude.{◌≡◌, min, not};
ghost use Rattle.lines.specs.Gathered.{empty, begun, pushed, line_answer, gathered, HasRoom};
ghost use Rattle.std.specs.Result.{result_map_both};

use refusal::Refusal;
use std::marker::Model;

// One line as its octets come in: at most `limit` of them are kept, and of a longer line none.
#[derive(Drop)]
pub struct Line {
    // A buffer with a count and no list: a line takes the same memory however long it grows, and `push` cannot fail.
    octets: [u8; 200],
    // How many octets are kept; none if there were too many.
    count: Option<usize>,
    limit: usize,
}

impl Model for Line {
    ghost use Rattle.std.specs.Prelude.{◌≤◌, take, IfSome};
    ghost use Rattle.std.specs.Option.{option_map};
    ghost use Rattle.lines.specs.Gathered.{Gathered};

    ghost Value = { Gathered };

    ghost view = { λ l. record { limit = l.limit; octets = option_map (λ n. take n l.octets) l.count } };

    ghost invariant = { λ l. IfSome l.count (λ n. n ≤ l.limit) × (l.limit ≤ 200) };
}

impl Line {
    // An empty line of at most `limit` octets, and never more than 200.
    pub fn new(limit: usize) -> Line
        ensures limit { result.limit ≡ min limit 200 }
        ensures octets { result.octets ≡ empty }
    {
        Line {
            octets: [0; 200],
            count: Some(0),
            limit: limit.min(200),
        }
    }

    // The line of at most `limit` octets, and never more than 200, onto which these octets were pushed.
    pub fn gather(limit: usize, octets: &[u8]) -> Line
        ensures limit { result.limit ≡ min limit 200 }
        ensures octets { result.octets ≡ gathered (min limit 200) octets.now }
    {
        let mut line = Line::new(limit);
        for octet in octets {
            line.push(*octet);
        }
        line
    }

    // One more octet.
    pub fn push(&mut self, octet: u8)
        ensures limit { self.new.limit ≡ self.old.limit }
        ensures octets { self.new.octets ≡ pushed self.old.limit self.old.octets octet }
        ensures room { HasRoom self.new }
    {
        let Some(count) = self.count else {
            return;
        };
        if count < self.limit {
            self.octets[count] = octet;
            self.count = Some(count + 1);
        } else {
            self.count = None;
        }
    }

    // The line's octets; an empty or over-long line is torn.
    pub fn octets(&self) -> Result<&[u8], Refusal>
        ensures answer { result_map_both (λ s. s.now) (λ e. e) result ≡ line_answer self.now.octets }
        ensures room { HasRoom self.now }
    {
        match self.count {
            None | Some(0) => Err(Refusal::Torn),
            Some(count) => Ok(&self.octets[..count]),
        }
    }

    // Whether an octet has come, kept or not.
    pub(crate) fn has_begun(&self) -> bool
        ensures { result ≡ begun self.now.octets }
    {
        self.count.is_none_or(|count| count > 0)
    }

    // The line is empty again.
    pub fn clear(&mut self)
        ensures limit { self.new.limit ≡ self.old.limit }
        ensures octets { self.new.octets ≡ empty }
        ensures room { HasRoom self.new }
    {
        self.count = Some(0);
    }
}
