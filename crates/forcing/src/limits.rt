// What limits the flux of a segment: a speed, by which the limiting flux grows with the water depth.
ghost use Rattle.std.specs.Prelude.{◌≡◌};
ghost use Rattle.forcing.specs.Limit.{LimitIn, limiting_speed};

// In 0.001 ft/s. `cross` is this record's cross stress, summed over the segment's two ends.
pub fn limiting_speed(friction: i64, cross: i64) -> i64
    requires { LimitIn friction cross }
    ensures { result ≡ limiting_speed friction cross }
{
    ranges::whole_root(225_000 * friction, 242 * cross.abs())
}
