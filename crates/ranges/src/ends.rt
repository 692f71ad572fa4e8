// The two ends of a range, as one trait: how a fraction is rounded there, which of two values lies further out, and where the end
// stands. What is worked out at both ends is written once over it.
ghost use Rattle.std.specs.Prelude.{◌≡◌, pos, ◌<ℤ◌};
ghost use Rattle.ranges.specs.Ends.{EndRule, EndLaws, low_rule, high_rule};
ghost use Rattle.ranges.specs.EndsLaws.{low-laws, high-laws};

use super::Range;
use super::division::{ceil_div, floor_div};

pub trait RangeEnd {
    ghost rule: { EndRule };

    // n / d, rounded outward.
    fn round(n: i64, d: i64) -> i64
        requires { pos 0 <ℤ d }
        ensures { result ≡ rule.rounded n d };

    // Of two values, the one further out.
    fn further(a: i64, b: i64) -> i64
        ensures { result ≡ rule.further a b };

    // This end of a range, and the other one.
    fn ends(r: Range) -> (i64, i64)
        ensures own { result.0 ≡ rule.own r }
        ensures other { result.1 ≡ rule.other r };

    // A rounded fraction is no less far out than the fraction, a whole number stays as it is, and the further of two values is no less far
    // out than either.
    ghost laws: { EndLaws rule };
}

// The low end: rounded down, the lesser of two.
#[derive(Clone, Copy, Debug, PartialEq, Eq)]
pub struct Low;

impl RangeEnd for Low {
    ghost rule = { low_rule };

    ghost laws = { low-laws };

    fn round(n: i64, d: i64) -> i64 {
        floor_div(n, d)
    }

    #[tactic(auto, using(std::proofs::lemmas::Int::ints), unfolding(crate::specs::Range::lesser))]
    fn further(a: i64, b: i64) -> i64 {
        a.min(b)
    }

    fn ends(r: Range) -> (i64, i64) {
        (r.low, r.high)
    }
}

// The high end: rounded up, the greater of two.
#[derive(Clone, Copy, Debug, PartialEq, Eq)]
pub struct High;

impl RangeEnd for High {
    ghost rule = { high_rule };

    ghost laws = { high-laws };

    fn round(n: i64, d: i64) -> i64 {
        ceil_div(n, d)
    }

    #[tactic(auto, using(std::proofs::lemmas::Int::ints), unfolding(crate::specs::Range::greater))]
    fn further(a: i64, b: i64) -> i64 {
        a.max(b)
    }

    fn ends(r: Range) -> (i64, i64) {
        (r.high, r.low)
    }
}
