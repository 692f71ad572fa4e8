// The checks of a deck, card by card: the shape of its line (2), its word and card number (15), its numbers (16).
#![tactic(auto, unfolding(crate::specs::Cards::word_at, crate::specs::Cards::follows_by, crate::specs::Cards::follows, crate::specs::Checks::card_number_good, crate::specs::Checks::with_numbers, crate::specs::Checks::placed_step))]

ghost use Rattle.std.specs.Prelude.{◌≡◌, ◌+◌, ◌<◌, ◌≤◌, ◌^◌, true, length};
ghost use Rattle.reader.specs.Text.{byte};
ghost use Rattle.deck.specs.Cards.{none, word_at, numbers_at, card_with, follows, cards_by};
ghost use Rattle.deck.specs.Checks.{counted, no_cards, with_numbers, card_number_good, placed_step, card_step, tallied};

use crate::CardCursor;
use crate::numbers::{Run, count_good};
use reader::Cursor;
use records::{Kind, Refusal};

// The word of a card.
#[derive(Clone, Copy, Debug, PartialEq, Eq)]
pub enum Word {
    Dist,
    Depth,
}

// What is kept of a card for the one behind it: its word and its card number.
#[derive(Clone, Copy, Debug, PartialEq, Eq)]
pub struct Last {
    pub word: Word,
    pub number: u64,
}

// The numbers of a card: how many, whether each is a whole count of tenths, and the cursor past the card's line feed.
#[derive(Clone, Copy, Debug, PartialEq, Eq)]
pub struct CardNumbers {
    pub count: usize,
    pub whole: bool,
    pub past: CardCursor,
}

// How many distances and depths there are.
#[derive(Clone, Copy, Debug, PartialEq, Eq)]
pub struct Counts {
    pub distances: usize,
    pub depths: usize,
}

// What the cards so far were: the last one, and their counts.
#[derive(Clone, Copy, Debug, PartialEq, Eq)]
pub struct Tally {
    pub last: Last,
    pub counts: Counts,
}

impl Last {
    // Whether this card may stand behind that one.
    fn follows(self, before: Last) -> bool
        ensures { result ≡ follows before self.word self.number }
    {
        if self.word == before.word {
            self.number > 0 && self.number - 1 == before.number
        } else {
            self.word == Word::Depth && self.number == 1
        }
    }
}

impl Counts {
    // With so many more of a word.
    fn with(self, word: Word, count: usize) -> Self
        requires { self.distances + self.depths + count < 2 ^ 64 }
        ensures { result ≡ with_numbers self word count }
    {
        match word {
            Word::Dist => Counts {
                distances: self.distances + count,
                ..self
            },
            Word::Depth => Counts {
                depths: self.depths + count,
                ..self
            },
        }
    }
}

impl Tally {
    // Before the first card.
    fn none() -> Self
        ensures { result ≡ no_cards }
    {
        Tally {
            last: Last {
                word: Word::Dist,
                number: 0,
            },
            counts: Counts {
                distances: 0,
                depths: 0,
            },
        }
    }

    // A card that has its shape: its place among the cards first, then its numbers. With the cursor past its line.
    fn placed(self, card: Last, x: CardNumbers) -> Result<(Tally, CardCursor), Kind>
        requires { self.counts.distances + self.counts.depths + x.count < 2 ^ 64 }
        ensures { result ≡ placed_step self card.word card.number x }
    {
        if !card.follows(self.last) {
            return Err(Kind::CardOrder);
        }
        if !x.whole {
            return Err(Kind::CardUnit);
        }
        let counts = self.counts.with(card.word, x.count);
        Ok((Tally { last: card, counts }, x.past))
    }

    // The card whose word begins at `from` and ends, before a space, at `end`.
    fn card(self, s: &[u8], from: CardCursor, end: CardCursor) -> Result<(Tally, CardCursor), Kind>
        requires space { byte s.now end.at ≡ 32 }
        requires counts { self.counts.distances + self.counts.depths ≤ end.at }
        ensures { result ≡ card_step self (card_with s.now from.at end.at) }
    {
        if end.at <= from.at {
            return Err(Kind::Malformed);
        }
        let n = end.past().run(s);
        if !n.card_number(s) {
            return Err(Kind::Malformed);
        }
        let x = n.past.past().numbers(s).ok_or(Kind::Malformed)?;
        let word = from.word(s).ok_or(Kind::CardOrder)?;
        self.placed(
            Last {
                word,
                number: n.worth,
            },
            x,
        )
    }
}

impl Run {
    // Whether this is a card number, with a space behind it.
    fn card_number(self, s: &[u8]) -> bool
        ensures { result ≡ card_number_good s.now self.count self.past.at }
    {
        count_good(self.count) && self.past.byte(s) == b' '
    }
}

impl CardCursor {
    // The word here, if it is one of a card.
    fn word(self, s: &[u8]) -> Option<Word>
        ensures { result ≡ word_at s.now self.at }
    {
        if Cursor::from(self).spells(s, b"DIST ") {
            return Some(Word::Dist);
        }
        if Cursor::from(self).spells(s, b"DEPTH ") {
            return Some(Word::Depth);
        }
        None
    }

    // The numbers of a card from here on, six at most.
    fn numbers(self, s: &[u8]) -> Option<CardNumbers>
        ensures { result ≡ counted 0 true (numbers_at s.now 6 self.at) }
    {
        let mut c = self;
        let mut whole = true;
        for i in 0..6 {
            let x = c.number(s)?;
            whole = whole && x.whole;
            let close = x.past.byte(s);
            if close == b'\n' {
                return Some(CardNumbers {
                    count: i + 1,
                    whole,
                    past: x.past.past(),
                });
            }
            if close != b' ' {
                return None;
            }
            c = x.past.past();
        }
        None
    }
}

// Checks a deck card by card and counts its numbers. It is left at the first fault, even from inside a word.
pub fn check_cards(s: &[u8]) -> Result<Counts, Refusal>
    ensures { result ≡ tallied no_cards (cards_by s.now (length s.now) none 0 0) }
{
    let mut c = CardCursor { at: 0 };
    let mut line: usize = 0;
    let mut tally = Tally::none();
    'cards: loop {
        if c.at >= s.len() {
            break 'cards Ok(tally.counts);
        }
        line = line.saturating_add(1);
        let from = c;
        let mut b = c.byte(s);
        while b != b' ' {
            if c.at >= s.len() || b == b'\n' {
                break 'cards Err(Refusal::new(Kind::Malformed, line));
            }
            c = c.past();
            b = c.byte(s);
        }
        match tally.card(s, from, c) {
            Err(kind) => break 'cards Err(Refusal::new(kind, line)),
            Ok((next, past)) => {
                tally = next;
                c = past;
            }
        }
    }
}
