// For tests only: the functions below the march, exported so that a program in another language can compare them with the second
// implementation one by one. Each requires what its callee requires; the test's driver asks only within document 01's limits.
#![tactic(auto)]

ghost use Rattle.std.specs.Prelude.{◌≡◌, false, pos, length, ◌<ℤ◌};
ghost use Rattle.forcing.specs.Quadrant.{Angle, sine_of, cosine_of};
ghost use Rattle.forcing.specs.Coefficient.{coefficient_of};
ghost use Rattle.forcing.specs.Stress.{Wind, stress_of};
ghost use Rattle.forcing.specs.Force.{ForceBounds, force_of};
ghost use Rattle.forcing.specs.Limit.{LimitIn, limiting_speed};
ghost use Rattle.ranges.specs.Bounds.{DampedIn, LimitBounds};
ghost use Rattle.ranges.specs.Range.{Positive};
ghost use Rattle.ranges.specs.Damped.{damped_of};
ghost use Rattle.ranges.specs.Limited.{limited_of};
ghost use Rattle.ranges.specs.Quotient.{quotient_of};
ghost use Rattle.probe.specs.Ends.{ends_of, range, parts_of};

use ranges::Range;

#[unsafe(no_mangle)]
pub extern "C" fn probe_sine(angle: i64) -> i64
    requires { Angle angle }
    ensures { result ≡ sine_of angle }
{
    forcing::Angle { tenths: angle }.sine()
}

#[unsafe(no_mangle)]
pub extern "C" fn probe_cosine(angle: i64) -> i64
    requires { Angle angle }
    ensures { result ≡ cosine_of angle }
{
    forcing::Angle { tenths: angle }.cosine()
}

// Numerator and square into two places.
#[unsafe(no_mangle)]
pub extern "C" fn probe_coefficient(w: i64, out: &mut [i64])
    requires { (Wind w × (pos 0 <ℤ w)) × (length out.old ≡ 2) }
    ensures { out.new ≡ parts_of (coefficient_of w) }
{
    let k = forcing::Wind { tenths: w }.coefficient();
    out.copy_from_slice(&[k.numerator, k.square]);
}

#[unsafe(no_mangle)]
pub extern "C" fn probe_stress(w: i64) -> i64
    requires { Wind w }
    ensures { result ≡ stress_of w }
{
    forcing::Wind { tenths: w }.stress()
}

// Low and high of a range into two places.
pub fn put(r: Range, out: &mut [i64])
    requires { length out.old ≡ 2 }
    ensures { out.new ≡ ends_of r }
{
    out.copy_from_slice(&[r.low, r.high]);
}

// The force of a later record.
#[unsafe(no_mangle)]
pub extern "C" fn probe_force(seconds: i64, old: i64, new: i64, out: &mut [i64])
    requires { (ForceBounds seconds old new) × (length out.old ≡ 2) }
    ensures { out.new ≡ ends_of (force_of false seconds old new) }
{
    let r = forcing::force(false, seconds, old, new);
    put(r, out);
}

#[unsafe(no_mangle)]
pub extern "C" fn probe_damped(
    c: i64,
    vlow: i64,
    vhigh: i64,
    flow: i64,
    fhigh: i64,
    dlow: i64,
    dhigh: i64,
    out: &mut [i64],
)
    requires { (DampedIn c (range vlow vhigh) (range flow fhigh) (range dlow dhigh)) × (length out.old ≡ 2) }
    ensures { out.new ≡ ends_of (damped_of c (range vlow vhigh) (range flow fhigh) (range dlow dhigh)) }
{
    let v = Range {
        low: vlow,
        high: vhigh,
    };
    let f = Range {
        low: flow,
        high: fhigh,
    };
    let d = Range {
        low: dlow,
        high: dhigh,
    };
    let r = ranges::damped(c, v, f, d);
    put(r, out);
}

#[unsafe(no_mangle)]
pub extern "C" fn probe_limiting_speed(friction: i64, sum: i64) -> i64
    requires { LimitIn friction sum }
    ensures { result ≡ limiting_speed friction sum }
{
    forcing::limiting_speed(friction, sum)
}

// The range of a damped sum, held by the limit.
#[unsafe(no_mangle)]
pub extern "C" fn probe_limited(
    speed: i64,
    low: i64,
    high: i64,
    dlow: i64,
    dhigh: i64,
    out: &mut [i64],
)
    requires { (LimitBounds speed (range dlow dhigh)) × (length out.old ≡ 2) }
    ensures { out.new ≡ ends_of (limited_of speed (range dlow dhigh) (range low high)) }
{
    let free = Range { low, high };
    let d = Range {
        low: dlow,
        high: dhigh,
    };
    let r = ranges::limited(speed, d, free);
    put(r, out);
}

#[unsafe(no_mangle)]
pub extern "C" fn probe_quotient(nlow: i64, nhigh: i64, dlow: i64, dhigh: i64, out: &mut [i64])
    requires { (Positive (range dlow dhigh)) × (length out.old ≡ 2) }
    ensures { out.new ≡ ends_of (quotient_of (range nlow nhigh) (range dlow dhigh)) }
{
    let n = Range {
        low: nlow,
        high: nhigh,
    };
    let d = Range {
        low: dlow,
        high: dhigh,
    };
    let r = ranges::quotient(n, d);
    put(r, out);
}
