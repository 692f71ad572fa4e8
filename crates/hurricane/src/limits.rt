// Document 02's limits of a hurricane's numbers, by name, and the tests against them. Both ends belong to a limit. A wind's and an angle's are
// those of a record. `specs/Limits.antt` has the same numbers for the definitions.
#![tactic(auto, unfolding(crate::specs::Limits::pressures_ok, crate::specs::Limits::hurricane_ok, crate::specs::Limits::wind_count_ok, crate::specs::Limits::wind_row_ok, crate::specs::Limits::plane_point_ok))]

ghost use Rattle.std.specs.Prelude.{◌≡◌};
ghost use Rattle.hurricane.specs.Limits.{pressures_ok, hurricane_ok, wind_count_ok, wind_row_ok, plane_point_ok};

use super::{Hurricane, PlanePoint, WindRow};
use ranges::Range;
use records::limits::{ANGLE, WIND, inside};

pub const PRESSURE: Range = Range {
    low: 2_500,
    high: 3_200,
};

// Of the edge above the centre.
pub const DROP: Range = Range { low: 0, high: 300 };

pub const RADIUS: Range = Range {
    low: 1,
    high: 2_000,
};

// A coordinate, either way.
pub const PLANE: Range = Range {
    low: -10_000,
    high: 10_000,
};

pub const WINDS_LEAST: usize = 1;

pub const WINDS_MOST: usize = 50;

// Of a row of the list.
pub const WIND_RADIUS: Range = Range {
    low: 0,
    high: 30_000,
};

// The drop is formed only of pressures that passed, so that it fits.
pub fn pressures_ok(central: i64, edge: i64) -> bool
    ensures { result ≡ pressures_ok central edge }
{
    inside(central, PRESSURE) && inside(edge, PRESSURE) && inside(edge - central, DROP)
}

pub fn hurricane_ok(h: Hurricane) -> bool
    ensures { result ≡ hurricane_ok h }
{
    pressures_ok(h.central, h.edge)
        && inside(h.radius, RADIUS)
        && inside(h.x, PLANE)
        && inside(h.y, PLANE)
}

pub fn wind_count_ok(n: usize) -> bool
    ensures { result ≡ wind_count_ok n }
{
    (WINDS_LEAST..=WINDS_MOST).contains(&n)
}

pub fn wind_row_ok(row: WindRow) -> bool
    ensures { result ≡ wind_row_ok row }
{
    inside(row.radius, WIND_RADIUS) && inside(row.wind, WIND)
}

pub fn plane_point_ok(p: PlanePoint) -> bool
    ensures { result ≡ plane_point_ok p }
{
    inside(p.x, PLANE) && inside(p.y, PLANE) && inside(p.angle, ANGLE)
}
