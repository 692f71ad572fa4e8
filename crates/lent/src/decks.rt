// Turning an old card deck into the text of `traverse.txt`. Every check and every byte is `deck`'s own.
#![tactic(auto, unfolding(crate::specs::Decks::deck_call))]

ghost use Rattle.lent.specs.Decks.{left_text, ReadsDeck};

use super::numbers::{WRONG_BUFFER, place_number, tell};
use records::Head;

// The three values are those of the file's second line; `text` is room for the file, whose bytes go to its front. The answer has how many there are.
// The number of the refusal is returned, 0 where the text is written.
pub fn read_deck(
    latitude: i64,
    friction: i64,
    initial: i64,
    deck: &[u8],
    text: &mut [u8],
    answer: &mut [i64],
) -> u64
    ensures { ReadsDeck latitude friction initial deck.now text.old answer.old (left_text result text.new answer.new) }
{
    let Some(answer) = answer.as_mut_array() else {
        return WRONG_BUFFER;
    };
    let head = Head {
        latitude,
        friction,
        initial,
    };
    match deck::read_deck(head, deck, text) {
        Ok(bytes) => tell(answer, Ok([0, place_number(bytes), 0])),
        Err(refusal) => tell(answer, Err(refusal)),
    }
}
