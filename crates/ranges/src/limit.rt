// A value held between -c and c, where c = b·δ/1,000 and δ lies in a range: the flux limit, once a damped sum's range is known. Two divisions, by a
// constant.
ghost use Rattle.std.specs.Prelude.{◌≡◌};
ghost use Rattle.ranges.specs.Bounds.{LimitBounds, LimitRange};
ghost use Rattle.ranges.specs.Limited.{between, limit_of, limited_end, limited_of};

use super::Range;
use super::ends::{High, Low, RangeEnd};

// c over δ's range, rounded outward.
fn limit_range(b: i64, depth: Range) -> Range
    requires { LimitBounds b depth }
    ensures { result ≡ limit_of b depth }
{
    let low = Low::round(b * depth.low, 1000);
    let high = High::round(b * depth.high, 1000);
    Range { low, high }
}

// x, held between two whole numbers.
#[tactic(auto, using(std::proofs::lemmas::Int::ints), unfolding(crate::specs::Range::lesser, crate::specs::Range::greater))]
fn between(least: i64, most: i64, x: i64) -> i64
    ensures { result ≡ between least most x }
{
    least.max(most.min(x))
}

// An end of the range, held: from zero on by the c of its own end, below zero by the -c of the other one.
fn limited_end<E: RangeEnd>(c: Range, x: i64) -> i64
    requires { LimitRange c }
    ensures { result ≡ limited_end E.rule c x }
{
    let (own, other) = E::ends(c);
    between(-other, own, x)
}

// Both ends of the range r of a damped sum, held.
#[tactic(auto, using(crate::proofs::LimitLaws::limit_within), unfolding(crate::specs::Limited::limited_low, crate::specs::Limited::limited_high))]
pub fn limited(b: i64, depth: Range, r: Range) -> Range
    requires { LimitBounds b depth }
    ensures { result ≡ limited_of b depth r }
{
    let c = limit_range(b, depth);
    let low = limited_end::<Low>(c, r.low);
    let high = limited_end::<High>(c, r.high);
    Range { low, high }
}
