// Checks 13, 14 and 8 of a record that is to be made, in the order of document 02: the first that fails decides, and within it the first bad row or
// point. All that is looked at is the caller's and may hold anything; nothing overflows on it and nothing past a slice is read.
#![tactic(auto, unfolding(crate::specs::Checks::rising_ok))]

ghost use Rattle.std.specs.Prelude.{◌≡◌, ◌&&◌, ◌+◌, ◌*◌, ◌≤◌, length};
ghost use Rattle.records.specs.Limits.{count_ok};
ghost use Rattle.hurricane.specs.Limits.{hurricane_ok, wind_count_ok};
ghost use Rattle.hurricane.specs.Checks.{rising_ok, make_check};

use super::limits::{hurricane_ok, plane_point_ok, wind_count_ok, wind_row_ok};
use super::{Hurricane, PlanePoint, WindRow};
use records::groups::{Group, count, group_at};
use records::limits::count_ok;
use records::{Kind, Point, Refusal, each, need};

// Whether row i has a greater radius than the row before it. The first row has none before it.
pub fn rising_at(winds: &[i64], i: usize) -> bool
    requires { 2 * i + 2 ≤ length winds.now }
    ensures { result ≡ rising_ok winds.now i }
{
    if i == 0 {
        return true;
    }
    let before = group_at::<WindRow>(winds, i - 1);
    let here = group_at::<WindRow>(winds, i);
    before.radius < here.radius
}

// Check 13, place 0: pressures, R, centre and both counts.
pub fn numbers_ok(h: Hurricane, rows: usize, points: usize) -> bool
    ensures { result ≡ (hurricane_ok h && (wind_count_ok rows && count_ok points)) }
{
    hurricane_ok(h) && wind_count_ok(rows) && count_ok(points)
}

// All of them, for room of so many numbers.
pub fn check_make(h: Hurricane, winds: &[i64], sites: &[i64], room: usize) -> Result<(), Refusal>
    ensures { result ≡ make_check h winds.now sites.now room }
{
    let rows = count::<WindRow>(winds);
    let points = count::<PlanePoint>(sites);
    need(
        numbers_ok(h, rows, points),
        Refusal::new(Kind::StormValue, 0),
    )?;
    each(Kind::StormValue, rows, |i| wind_row_ok(group_at(winds, i)))?;
    each(
        Kind::StormValue,
        points,
        |i| plane_point_ok(group_at(sites, i)),
    )?;
    each(Kind::WindRadii, rows, |i| rising_at(winds, i))?;
    need(Point::NUMBERS * points <= room, Refusal::new(Kind::Lent, 0))
}
