//! One case: an input and the text that is to answer it.
ghost use Rattle.std.specs.Prelude.{◌≡◌, IfOk};
ghost use Rattle.transcript.specs.Transcripts.{lines_in, answers_to};
ghost use Rattle.trials.specs.Compare.{differs};

use crate::compare::difference;
use std::alloc::{AllocError, Global};
use transcript::transcribe_parts;

// Where the text that answers an input, fed in parts of `size` octets, differs from the one that is to, if it does.
fn compare_parts(
    heap: Global,
    input: &[u8],
    expected: &[u8],
    size: usize,
) -> Result<Option<usize>, AllocError>
    ensures { IfOk result (λ o. o ≡ differs 0 (answers_to (lines_in input.now)) expected.now) }
{
    let mut text = Vec::new(heap);
    transcribe_parts(heap, input, size, &mut text)?;
    Ok(difference(&text, expected))
}

// The same for parts of 1, of 7 and of 65536 octets: the first that differs.
pub(crate) fn compare(
    heap: Global,
    input: &[u8],
    expected: &[u8],
) -> Result<Option<usize>, AllocError>
    ensures { IfOk result (λ o. o ≡ differs 0 (answers_to (lines_in input.now)) expected.now) }
{
    for size in [1, 7, 65536] {
        let place = compare_parts(heap, input, expected, size)?;
        if place.is_some() {
            return Ok(place);
        }
    }
    Ok(None)
}
