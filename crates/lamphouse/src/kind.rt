//! What a line asks for, and the kind of reading that it is about.
ghost use Rattle.std.specs.Prelude.{◌≡◌};
ghost use Rattle.lamphouse.specs.Kinds.{letter_at, kind_at, task_in};
ghost use Rattle.lines.specs.Fields.{fields};

use lines::field;
use reading::Kind;

// What a line asks for.
#[derive(Clone, Copy, PartialEq, Eq, Debug)]
pub enum Task {
    // One item is closed, of this kind.
    CloseItem(Kind),
    // A run of one node begins.
    Begin,
    // A message came in.
    Hear,
    // The step of the run is closed.
    CloseStep,
}

// The octet of a field that has one.
fn letter(line: &[u8], index: usize) -> Option<u8>
    ensures { result ≡ letter_at (fields 32 line.now) index }
{
    match field(line, b' ', index)? {
        [letter] => Some(*letter),
        _ => None,
    }
}

// The kind that a field names: one letter, B or L.
pub fn kind_at_field(line: &[u8], index: usize) -> Option<Kind>
    ensures { result ≡ kind_at (fields 32 line.now) index }
{
    Kind::try_from(letter(line, index)?).ok()
}

// What the first field asks for: one letter, N, M, C or a kind's.
pub fn task_of(line: &[u8]) -> Option<Task>
    ensures { result ≡ task_in (fields 32 line.now) }
{
    match letter(line, 0)? {
        b'N' => Some(Task::Begin),
        b'M' => Some(Task::Hear),
        b'C' => Some(Task::CloseStep),
        letter => Kind::try_from(letter).ok().map(Task::CloseItem),
    }
}
