// The whole root, rounded down: the greatest b with k·b² not above n. It is found by trial, since a search takes several times as long: the machine's
// floating point proposes a number, and whole numbers decide whether it is the one, as it nearly always is. What is answered rests on the trial
// alone: of what floats give, nothing is assumed.
ghost use Rattle.std.specs.Prelude.{◌≡◌, pos, ◌≤ℤ◌};
ghost use Rattle.ranges.specs.Bounds.{RootBounds};
ghost use Rattle.ranges.specs.Root.{root_of};

use super::division::floor_div;
use std::num::f64_to_bits_with_nan;

// The greatest whole number up to which every one is a float.
const FLOAT_MOST: i64 = 9_007_199_254_740_992;

// A float of this size is a whole number, and its last bits are those of one: so the whole number nearest to a small float is read from the bits of
// their sum.
const WHOLE_SIZE: f64 = 6_755_399_441_055_744.0;

const WHOLE_BITS: i64 = 0x4338_0000_0000_0000;

// A root of 15 bits at the most is tried, so that its square and k fit together.
const ROOT_MOST: i64 = 32_767;

// About x, as a whole number.
fn whole_near(x: f64) -> i64 {
    let bits = f64_to_bits_with_nan(x + WHOLE_SIZE);
    (bits % 0x8000_0000_0000_0000) as i64 - WHOLE_BITS
}

// About the root of n / k, rounded down: a little less than half is taken off, so that a root that comes out even stays what it is.
fn proposed(k: i64, n: i64) -> i64
    requires { RootBounds k n }
    ensures low { pos 0 ≤ℤ result }
    ensures high { result ≤ℤ pos 32767 }
{
    let quotient = n.min(FLOAT_MOST) as f64 / k as f64;
    whole_near(quotient.sqrt() - 0.49999).max(0).min(ROOT_MOST)
}

// The greatest b with k·b² not above n. Where the trial fails, it is the greatest whose square is not above n / k, rounded down.
pub fn whole_root(k: i64, n: i64) -> i64
    requires { RootBounds k n }
    ensures { result ≡ root_of k n }
{
    let b = proposed(k, n);
    let next = b + 1;
    if k * (b * b) <= n && n < k * (next * next) {
        return b;
    }
    floor_div(n, k).isqrt()
}
