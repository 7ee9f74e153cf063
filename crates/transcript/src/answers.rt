//! What a line of a run on a desk is answered by.
ghost use Rattle.std.specs.Prelude.{◌≡◌, Ok};
ghost use Rattle.spelling.specs.Texts.{Wrote};
ghost use Rattle.transcript.specs.Answers.{reply_text, served};

use super::rows::write_rows;
use console::parse_line;
use desk::{Desk, Reply};
use spelling::{Spelled, write_look, write_refused};
use std::alloc::{AllocError, Global};

// Adds what a desk replied to a line that it accepted to a text. The rows of an ended run are those of the desk.
fn write_reply<R: Spelled>(
    desk: &Desk<R>,
    heap: Global,
    number: u64,
    reply: Reply<R>,
    text: &mut Vec<u8>,
) -> Result<(), AllocError>
    ensures { Wrote result text.old.items text.new.items (reply_text R.Spelled.spelled number desk.now (Ok reply)) }
{
    match reply {
        Reply::Done => Ok(()),
        Reply::Decision {
            node,
            item,
            decision,
        } => write_look(text, number, node, item, &decision),
        Reply::Rows => write_rows(desk, heap, text),
    }
}

// Runs what a line asks for, and adds what answers it to a text. A line with a fault is refused and alters nothing.
pub fn answer_line<R: Spelled>(
    desk: &mut Desk<R>,
    heap: Global,
    number: u64,
    line: &[u8],
    text: &mut Vec<u8>,
) -> Result<(), AllocError>
    ensures text { Wrote result text.old.items text.new.items (served R.Spelled.spelled R.Reading.meaning R.Spelled.parses desk.old number line.now).text }
    ensures desk { desk.new ≡ (served R.Spelled.spelled R.Reading.meaning R.Spelled.parses desk.old number line.now).after }
{
    match parse_line::<R>(line, desk.turn()) {
        Ok(command) => match desk.run(&command) {
            Ok(reply) => write_reply(desk, heap, number, reply, text),
            Err(refusal) => write_refused(text, number, refusal),
        },
        Err(fault) => write_refused(text, number, fault.refusal),
    }
}
