// Old card decks, in the manner of TM-50: DIST and DEPTH cards become the text of `traverse.txt`. Document 02, Q-3.
// A deck is a slice of bytes of any length, with any number of points, so none is kept: the cards are checked one after the other, and then two
// cursors go over the distances and the depths side by side, once for the room that they need and once to write them.
// This file has the cursor and the call; `numbers` what stands between two spaces, `cards` the checks, `walk` the way from number to number, `text`
// what is written.
#![tactic(auto)]

mod cards;
mod numbers;
mod text;
mod walk;

ghost use Rattle.std.specs.Prelude.{◌≡◌, ◌+◌, ◌<◌, ◌^◌};
ghost use Rattle.reader.specs.Text.{byte, some_digit};
ghost use Rattle.deck.specs.Deck.{left_deck, convert_of};
ghost use Rattle.deck.specs.Number.{cursor};

use cards::check_cards;
use reader::Cursor;
use records::limits::head_ok;
use records::{Head, Kind, Refusal, need};
use text::put_text;

// A place in a deck. It goes by value, and is handed back moved.
#[derive(Clone, Copy, Debug, PartialEq, Eq)]
struct CardCursor {
    pub at: usize,
}

// The reader's cursor there. A deck's lines are counted card by card, so it has none.
impl From<CardCursor> for Cursor {
    ghost from_gives = { λ c x. x ≡ record { at = c.at; line = 0 } };

    fn from(c: CardCursor) -> Self {
        Cursor { at: c.at, line: 0 }
    }
}

impl CardCursor {
    // The byte here, and 0 past the end.
    fn byte(self, s: &[u8]) -> u8
        ensures { result ≡ byte s.now self.at }
    {
        Cursor::from(self).byte(s)
    }

    // The digit here, if there is one.
    fn digit(self, s: &[u8]) -> Option<u64>
        ensures { result ≡ some_digit s.now self.at }
    {
        Cursor::from(self).digit(s)
    }

    // Past the byte here.
    fn past(self) -> Self
        requires { self.at + 1 < 2 ^ 64 }
        ensures { result ≡ cursor (self.at + 1) }
    {
        CardCursor { at: self.at + 1 }
    }
}

// Writes the traverse file of a deck to the front of `text`, and answers how many bytes it has; the given values are latitude, friction and
// initial level. Refused, and behind what was written, `text` stays as lent.
pub fn read_deck(head: Head, deck: &[u8], text: &mut [u8]) -> Result<usize, Refusal>
    ensures { left_deck result text.new ≡ convert_of head deck.now text.old }
{
    need(head_ok(head), Refusal::new(Kind::TraverseValue, 0))?;
    need(!deck.is_empty(), Refusal::new(Kind::Ended, 0))?;
    let counts = check_cards(deck)?;
    need(
        counts.distances == counts.depths,
        Refusal::new(Kind::CardCounts, counts.distances),
    )?;
    put_text(head, deck, counts.distances, text)
}
