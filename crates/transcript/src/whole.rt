//! A whole input, and the text that answers its lines.
ghost use Rattle.spelling.specs.Texts.{Wrote};
ghost use Rattle.transcript.specs.Transcripts.{lines_in, answers_to};

use super::types::Harbour;
use std::alloc::{AllocError, Global};

// Adds what the lines of an input are answered by to a text.
pub fn transcribe(heap: Global, input: &[u8], text: &mut Vec<u8>) -> Result<(), AllocError>
    ensures { Wrote result text.old.items text.new.items (answers_to (lines_in input.now)) }
{
    transcribe_parts(heap, input, usize::MAX, text)
}

// The same of an input that comes in parts of `size` octets.
pub fn transcribe_parts(
    heap: Global,
    input: &[u8],
    size: usize,
    text: &mut Vec<u8>,
) -> Result<(), AllocError>
    ensures { Wrote result text.old.items text.new.items (answers_to (lines_in input.now)) }
{
    let mut harbour = Harbour::new();
    harbour.feed_parts(heap, input, size, text)?;
    harbour.finish(heap, text)
}
