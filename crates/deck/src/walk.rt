// The way over a deck that was found sound, from number to number: along a card, and from its line feed to the first number of the next.
#![tactic(auto, unfolding(crate::specs::Number::decimal_at, crate::specs::Walk::next_from, crate::specs::Walk::next_at, crate::specs::Walk::step_at, crate::specs::Walk::points_at))]

ghost use Rattle.std.specs.Prelude.{◌≡◌};
ghost use Rattle.deck.specs.Number.{cursor};
ghost use Rattle.deck.specs.Walk.{past_space, first_at, next_from, step_at, walked, points_at};

use crate::CardCursor;

// The number at a cursor, in tenths, and the cursor at the next one.
#[derive(Clone, Copy, Debug, PartialEq, Eq)]
pub struct Step {
    pub tenths: u64,
    pub next: CardCursor,
}

// A point of the traverse, in tenths.
#[derive(Clone, Copy, Debug, PartialEq, Eq)]
pub struct Point {
    pub distance: u64,
    pub depth: u64,
}

// A cursor over the distances and one over the depths, side by side.
#[derive(Clone, Copy, Debug, PartialEq, Eq)]
pub struct Points {
    pub distance: CardCursor,
    pub depth: CardCursor,
}

impl CardCursor {
    // Past the next space, or at the end of the text.
    fn past_space(self, s: &[u8]) -> Self
        ensures { result ≡ cursor (past_space s.now self.at) }
    {
        for at in self.at..s.len() {
            if s[at] == b' ' {
                return CardCursor { at: at + 1 };
            }
        }
        CardCursor {
            at: self.at.max(s.len()),
        }
    }

    // At the first number of the card here: past its word and its card number, each with its space.
    pub fn first(self, s: &[u8]) -> Self
        ensures { result ≡ cursor (first_at s.now self.at) }
    {
        let number = self.past_space(s);
        number.past_space(s)
    }

    // At the next number, where one ends here.
    fn onward(self, s: &[u8]) -> Self
        ensures { result ≡ cursor (next_from s.now self.at) }
    {
        if self.at >= s.len() {
            return self;
        }
        let next = self.past();
        if self.byte(s) == b'\n' {
            next.first(s)
        } else {
            next
        }
    }

    // The number here, and the next one.
    fn step(self, s: &[u8]) -> Step
        ensures { result ≡ step_at s.now self.at }
    {
        let x = self.decimal(s);
        Step {
            tenths: x.tenths,
            next: x.past.onward(s),
        }
    }

    // Past n numbers.
    pub fn forward(self, s: &[u8], n: usize) -> Self
        ensures { result ≡ cursor (walked s.now n self.at) }
    {
        let mut c = self;
        for _ in 0..n {
            c = c.step(s).next;
        }
        c
    }
}

impl Points {
    // The point here, and the next one.
    pub fn step(self, s: &[u8]) -> (Point, Points)
        ensures { result ≡ points_at s.now self }
    {
        let d = self.distance.step(s);
        let h = self.depth.step(s);
        let point = Point {
            distance: d.tenths,
            depth: h.tenths,
        };
        (
            point,
            Points {
                distance: d.next,
                depth: h.next,
            },
        )
    }
}
