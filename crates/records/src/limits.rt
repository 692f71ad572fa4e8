// The limits of document 01's table of quantities, by name, and the tests against them. Both ends belong to a limit. Those of a row stand
// with the row. `specs/Limits.antt` has the same numbers for the definitions.
#![tactic(auto, unfolding(crate::specs::Limits::inside, crate::specs::Limits::range_inside, crate::specs::Limits::count_ok, crate::specs::Limits::build_has, crate::specs::Limits::head_ok, crate::specs::Limits::station_ok, crate::specs::Limits::point_ok, crate::specs::Limits::calm_ok, crate::specs::Limits::row_ok, crate::specs::Limits::seconds_ok))]

ghost use Rattle.std.specs.Prelude.{◌≡◌};
ghost use Rattle.records.specs.Limits.{inside, range_inside, count_ok, build_has, head_ok, station_ok, point_ok, calm, calm_ok, row_ok, seconds_ok};

use super::{Head, Point, Row, Station};
use ranges::Range;

// ---- a traverse

pub const POINTS_LEAST: usize = 2;

pub const POINTS_MOST: usize = 65;

pub const SEGMENTS_MOST: usize = 64;

// And on the harbour panel.
pub const PANEL_POINTS: usize = 17;

pub const PANEL_SEGMENTS: usize = 16;

pub const LATITUDE: Range = Range { low: 0, high: 900 };

pub const FRICTION: Range = Range { low: 10, high: 50 };

pub const INITIAL: Range = Range {
    low: -1_000,
    high: 1_000,
};

pub const DISTANCE: Range = Range {
    low: 0,
    high: 6_400,
};

pub const DEPTH: Range = Range {
    low: 0,
    high: 10_000,
};

// Of a segment: how much less a distance is than the one before.
pub const LENGTH: Range = Range { low: 1, high: 100 };

// The last distance: the last point is the shore.
pub const SHORE: Range = Range { low: 0, high: 0 };

// ---- a record

// Of a first record, and of a later one.
pub const FIRST_SECONDS: Range = Range { low: 0, high: 0 };

pub const SECONDS: Range = Range {
    low: 1,
    high: 3_600,
};

pub const TIDE: Range = Range {
    low: -2_000,
    high: 2_000,
};

pub const WIND: Range = Range {
    low: 0,
    high: 2_000,
};

pub const ANGLE: Range = Range {
    low: 0,
    high: 3_599,
};

// The wind that is a calm, and the angle that it carries.
pub const CALM: i64 = 0;

pub const CALM_ANGLE: i64 = 0;

pub const DEFICIT: Range = Range { low: 0, high: 300 };

pub const ELAPSED: Range = Range {
    low: 0,
    high: 1_000_000_000,
};

// ---- a march

pub const WATER: Range = Range {
    low: 100,
    high: 100_000,
};

pub const SETUP: Range = Range {
    low: -1_000_000,
    high: 1_000_000,
};

// ---- the tests

// limits.low ≤ x ≤ limits.high
pub fn inside(x: i64, limits: Range) -> bool
    ensures { result ≡ inside limits.low limits.high x }
{
    (limits.low..=limits.high).contains(&x)
}

// Both ends of a range.
pub fn range_inside(r: Range, limits: Range) -> bool
    ensures { result ≡ range_inside limits.low limits.high r }
{
    inside(r.low, limits) && inside(r.high, limits)
}

// Whether a traverse may have so many points.
pub fn count_ok(n: usize) -> bool
    ensures { result ≡ count_ok n }
{
    (POINTS_LEAST..=POINTS_MOST).contains(&n)
}

// And whether a build whose traverses may have `most` points takes so many.
pub fn build_has(most: usize, n: usize) -> bool
    ensures { result ≡ build_has most n }
{
    n <= most
}

pub fn head_ok(h: Head) -> bool
    ensures { result ≡ head_ok h }
{
    inside(h.latitude, LATITUDE) && inside(h.friction, FRICTION) && inside(h.initial, INITIAL)
}

pub fn station_ok(s: Station) -> bool
    ensures { result ≡ station_ok s }
{
    inside(s.distance, DISTANCE) && inside(s.depth, DEPTH)
}

pub fn point_ok(p: Point) -> bool
    ensures { result ≡ point_ok p }
{
    inside(p.wind, WIND) && inside(p.angle, ANGLE) && inside(p.deficit, DEFICIT)
}

pub fn is_calm(wind: i64) -> bool
    ensures { result ≡ calm wind }
{
    wind == CALM
}

// A calm has no direction: a wind of 0 carries angle 0.
pub fn calm_ok(p: Point) -> bool
    ensures { result ≡ calm_ok p }
{
    !is_calm(p.wind) || p.angle == CALM_ANGLE
}

pub fn row_ok(v: Row) -> bool
    ensures { result ≡ row_ok v }
{
    v.low <= v.high && range_inside(v.flux(), Row::FLUX) && inside(v.cross, Row::CROSS)
}

// Seconds of a first record, and of a later one.
pub fn seconds_ok(started: bool, seconds: i64) -> bool
    ensures { result ≡ seconds_ok started seconds }
{
    inside(seconds, if started { SECONDS } else { FIRST_SECONDS })
}
