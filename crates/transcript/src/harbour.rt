//! What the octets that come in to a harbour are answered by.
ghost use Rattle.std.specs.Prelude.{◌≡◌};
ghost use Rattle.transcript.specs.Harbours.{before, line_served, ended, took, fed, finished, HasRoom};
ghost use Rattle.transcript.specs.Runs.{standing, fresh, Answers};

use super::run::answer_run;
use super::types::{Harbour, Run};
use lines::Incoming;
use spelling::write_refused;
use std::alloc::{AllocError, Global};

// The longest line that is taken.
const LIMIT: usize = 60;

// Adds what a line that has come in is answered by to a text. One of no octet or too many is refused.
fn answer_gathered(
    run: &mut Option<Run>,
    heap: Global,
    line: &Incoming,
    text: &mut Vec<u8>,
) -> Result<(), AllocError>
    ensures { Answers result text.old.items text.new.items (standing run.new) (line_served (standing run.old) line.now.number line.now.octets) }
{
    let number = line.number();
    match line.octets() {
        Ok(octets) => answer_run(run, heap, number, octets, text),
        Err(refusal) => write_refused(text, number, refusal),
    }
}

impl Harbour {
    // A harbour that nothing has come in to.
    pub fn new() -> Harbour
        ensures new { result ≡ before 1 fresh }
        ensures room { HasRoom result }
    {
        Harbour {
            incoming: Incoming::new(LIMIT),
            run: None,
        }
    }

    // Answers the line that has come in, and begins the next.
    fn end_line(&mut self, heap: Global, text: &mut Vec<u8>) -> Result<(), AllocError>
        ensures answers { Answers result text.old.items text.new.items self.new (ended self.old) }
        ensures room { HasRoom self.new }
    {
        answer_gathered(&mut self.run, heap, &self.incoming, text)?;
        self.incoming.next_line();
        Ok(())
    }

    // Takes one octet: 10 ends the line.
    fn take(&mut self, heap: Global, octet: u8, text: &mut Vec<u8>) -> Result<(), AllocError>
        ensures answers { Answers result text.old.items text.new.items self.new (took self.old octet) }
        ensures room { HasRoom self.new }
    {
        if self.incoming.push(octet) {
            return self.end_line(heap, text);
        }
        Ok(())
    }

    // Takes octets, and adds what the lines that they end are answered by to a text.
    pub fn feed(
        &mut self,
        heap: Global,
        octets: &[u8],
        text: &mut Vec<u8>,
    ) -> Result<(), AllocError>
        ensures answers { Answers result text.old.items text.new.items self.new (fed self.old octets.now) }
        ensures room { HasRoom self.new }
    {
        // What the line holds finds room, also where nothing comes in.
        let _ = &self.incoming;
        for octet in octets {
            self.take(heap, *octet, text)?;
        }
        Ok(())
    }

    // Takes octets in parts of `size`, or of one if that is 0: it comes to the same.
    pub fn feed_parts(
        &mut self,
        heap: Global,
        octets: &[u8],
        size: usize,
        text: &mut Vec<u8>,
    ) -> Result<(), AllocError>
        ensures answers { Answers result text.old.items text.new.items self.new (fed self.old octets.now) }
        ensures room { HasRoom self.new }
    {
        // What the line holds finds room, also where nothing comes in.
        let _ = &self.incoming;
        for part in octets.chunks(size.max(1)) {
            self.feed(heap, part, text)?;
        }
        Ok(())
    }

    // Ends the input. A last line without octet 10 counts if anything of it has come.
    pub fn finish(&mut self, heap: Global, text: &mut Vec<u8>) -> Result<(), AllocError>
        ensures answers { Answers result text.old.items text.new.items self.new (finished self.old) }
        ensures room { HasRoom self.new }
    {
        if self.incoming.has_begun() {
            return self.end_line(heap, text);
        }
        Ok(())
    }
}
