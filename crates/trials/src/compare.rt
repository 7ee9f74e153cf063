//! Where two texts differ.
ghost use Rattle.std.specs.Prelude.{◌≡◌, ◌==◌, not, position};
ghost use Rattle.std.specs.List.{zip};
ghost use Rattle.trials.specs.Compare.{differs};

// The first place, counted from 0, at which both texts have an octet and not the same, if there is one.
fn first_other(text: &[u8], other: &[u8]) -> Option<usize>
    ensures { result ≡ position (λ p. not (p.0 == p.1)) (zip text.now other.now) }
{
    text.iter()
        .zip(other)
        .position(|(octet, wanted)| octet != wanted)
}

// The place of the first octet in which two texts differ, counted from 0, if there is one.
#[tactic(auto, using(crate::proofs::Comparing::differs_position))]
pub(crate) fn difference(text: &[u8], other: &[u8]) -> Option<usize>
    ensures { result ≡ differs 0 text.now other.now }
{
    let shorter = text.len().min(other.len());
    first_other(text, other).or((text.len() != other.len()).then_some(shorter))
}
