// The numbers of a card: runs of digits, and a number in tenths, which is one run or two with a point between them.
#![tactic(auto, unfolding(crate::specs::Number::count_good, crate::specs::Number::part_at, crate::specs::Number::number_at))]

ghost use Rattle.std.specs.Prelude.{◌≡◌};
ghost use Rattle.deck.specs.Number.{count_good, no_digit, run_at, part_at, decimal_at, number_at};

use crate::CardCursor;

// The most digits of a number.
const DIGITS: u64 = 8;

// A run of digits, one more at most than a number may have: the cursor past it, how many, what they are worth, and ten for each, multiplied.
#[derive(Clone, Copy, Debug, PartialEq, Eq)]
pub struct Run {
    pub past: CardCursor,
    pub count: u64,
    pub worth: u64,
    pub scale: u64,
}

// A number: the cursor past it, how many digits it has, its tenths, and whether it is a whole count of them.
#[derive(Clone, Copy, Debug, PartialEq, Eq)]
pub struct Number {
    pub past: CardCursor,
    pub count: u64,
    pub tenths: u64,
    pub whole: bool,
}

// Whether a number may have so many digits.
pub fn count_good(count: u64) -> bool
    ensures { result ≡ count_good count }
{
    (1..=DIGITS).contains(&count)
}

impl Run {
    // Before the first digit.
    fn none(at: CardCursor) -> Self
        ensures { result ≡ no_digit at }
    {
        Run {
            past: at,
            count: 0,
            worth: 0,
            scale: 1,
        }
    }
}

impl CardCursor {
    // The run of digits here.
    pub fn run(self, s: &[u8]) -> Run
        ensures { result ≡ run_at s.now self.at }
    {
        let mut run = Run::none(self);
        for _ in 0..DIGITS + 1 {
            let Some(d) = run.past.digit(s) else {
                break;
            };
            run = Run {
                past: run.past.past(),
                count: run.count + 1,
                worth: run.worth * 10 + d,
                scale: run.scale * 10,
            };
        }
        run
    }

    // The run behind a point here. Where no point stands it has no digit.
    fn part(self, s: &[u8]) -> Run
        ensures { result ≡ part_at s.now self.at }
    {
        if self.byte(s) == b'.' {
            self.past().run(s)
        } else {
            Run::none(self)
        }
    }

    // What stands here in place of a number, of any count of digits. Behind its point, ten times what the digits are worth over ten for each of
    // them are tenths, whole ones where nothing is left.
    pub fn decimal(self, s: &[u8]) -> Number
        ensures { result ≡ decimal_at s.now self.at }
    {
        let front = self.run(s);
        let part = front.past.part(s);
        let tenfold = 10 * part.worth;
        Number {
            past: part.past,
            count: front.count + part.count,
            tenths: 10 * front.worth + tenfold / part.scale,
            whole: tenfold % part.scale == 0,
        }
    }

    // The number here, if it has one to eight digits.
    pub fn number(self, s: &[u8]) -> Option<Number>
        ensures { result ≡ number_at s.now self.at }
    {
        let x = self.decimal(s);
        count_good(x.count).then_some(x)
    }
}
