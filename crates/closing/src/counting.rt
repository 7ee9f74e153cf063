//! Counting, choosing and grading, as one text for every kind of reading.
ghost use Rattle.std.specs.Prelude.{◌≡◌, ℕ, ◌+◌, ◌*◌, ◌/◌, true, false};
ghost use Rattle.closing.specs.Counting.{quorum_of, weak_quorum_of, backers, leading_of, graded, votes};

use super::hearing::Hearing;
use super::types::Mark;
use reading::Reading;

// The quorum of n nodes: two thirds, rounded down, and one.
pub fn quorum(n: usize) -> usize
    ensures { result ≡ quorum_of n }
{
    n - n.div_ceil(3) + 1
}

// The weak quorum of n nodes: a third, rounded down, and one.
pub fn weak_quorum(n: usize) -> usize
    ensures { result ≡ weak_quorum_of n }
{
    n / 3 + 1
}

// How many nodes gave a reading of the same meaning as `sought`.
pub fn count_backers<R: Reading, H: Hearing<R>>(sought: &R, heard: &H) -> usize
    ensures { result ≡ backers R.Reading.meaning (R.Reading.meaning sought.now) (H.Hearing.cells heard.now) }
{
    // As a chain, with one filter or with two, this was tried: it took 1.7 to 2.3 times as long.
    let mut count = 0;
    for node in 0..heard.cell_count() {
        if let Some(r) = heard.cell(node) {
            if r.same(sought) {
                count += 1;
            }
        }
    }
    count
}

// The reading of the lowest node whose meaning has q backers.
pub fn leading<R: Reading, H: Hearing<R>>(q: usize, heard: &H) -> Option<R>
    ensures { result ≡ leading_of R.Reading.meaning q (H.Hearing.cells heard.now) }
{
    for node in 0..heard.cell_count() {
        if let Some(r) = heard.cell(node) {
            if q <= count_backers(&r, heard) {
                return Some(r);
            }
        }
    }
    None
}

// The held cell and its grade: 2 with the quorum q, else 1 with the weak quorum w, else none and 0. A grade is a number, as the protocol has it.
pub fn grade<R: Reading, H: Hearing<R>>(q: usize, w: usize, heard: &H) -> (Option<R>, u8)
    ensures { result ≡ graded R.Reading.meaning q w (H.Hearing.cells heard.now) }
{
    if let Some(r) = leading(q, heard) {
        return (Some(r), 2);
    }
    match leading(w, heard) {
        Some(r) => (Some(r), 1),
        None => (None, 0),
    }
}

// How many nodes sent this bit.
pub fn count_bit<R, H: Hearing<R>>(bit: bool, heard: &H) -> usize
    ensures { result ≡ votes bit (H.Hearing.marks heard.now) }
{
    let sought = Mark::of_bit(bit);
    (0..heard.mark_count())
        .filter(|node| Mark::from(heard.mark(*node)) == sought)
        .count()
}

// How many nodes sent the bit 0, and how many the bit 1.
pub fn count_votes<R, H: Hearing<R>>(heard: &H) -> (usize, usize)
    ensures { result ≡ (votes false (H.Hearing.marks heard.now), votes true (H.Hearing.marks heard.now)) }
{
    // One walk counts both: a chain for each bit was tried, and took twice as long.
    let mut zeros = 0;
    let mut ones = 0;
    for node in 0..heard.mark_count() {
        let octet = heard.mark(node);
        if octet == Mark::Zero.octet() {
            zeros += 1;
        } else if octet == Mark::One.octet() {
            ones += 1;
        }
    }
    (zeros, ones)
}
