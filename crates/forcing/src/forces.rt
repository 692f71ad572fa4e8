// The force on a segment in flux units, rounded outward.
ghost use Rattle.std.specs.Prelude.{◌≡◌};
ghost use Rattle.forcing.specs.Force.{ForceBounds, force_of};

use ranges::Range;

// `old` and `new` are the previous record's and this record's cross stresses, each summed over the segment's two ends.
pub fn force(first: bool, seconds: i64, old: i64, new: i64) -> Range
    requires { ForceBounds seconds old new }
    ensures { result ≡ force_of first seconds old new }
{
    if first {
        return Range { low: 0, high: 0 };
    }
    let sum = old + new;
    ranges::divide(seconds * sum * 121, 22_500_000_000_000)
}
