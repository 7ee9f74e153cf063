//! The words of the refusals, by their numbers.
ghost use Rattle.std.specs.Prelude.{◌≡◌, ℕ, length};
ghost use Rattle.controller.specs.Words.{word_of};
ghost use Rattle.controller.specs.Places.{put_front, fitting};

use refusal::Refusal;

// The word of a refusal's number, and no octets where there is no such number.
fn word_of(number: u8) -> &'static [u8]
    ensures { result.now ≡ word_of number }
{
    match Refusal::try_from(number) {
        Ok(refusal) => refusal.word().as_bytes(),
        Err(_) => &[],
    }
}

// Writes the word of a refusal's number to the front of a place, and says how long it is.
// Where there is no such number, or no room for its word, it answers 0 and leaves the place alone.
#[unsafe(no_mangle)]
pub extern "C" fn rilvatok_refusal_word(number: u8, place: &mut [u8]) -> usize
    ensures answer { result ≡ length (fitting (word_of number) place.old) }
    ensures after { place.new ≡ put_front (fitting (word_of number) place.old) place.old }
{
    let word = word_of(number);
    if place.len() < word.len() {
        return 0;
    }
    place[..word.len()].copy_from_slice(word);
    word.len()
}
