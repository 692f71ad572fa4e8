// The hurricane's field at a point: distance from the centre, pressure deficit by a table, wind by the list. The table is lent with the field:
// another profile may stand in its place.
ghost use Rattle.std.specs.Prelude.{◌≡◌, ◌<◌, pos, nat_abs, ◌≤ℤ◌};
ghost use Rattle.records.specs.Groups.{at};
ghost use Rattle.hurricane.specs.Bounds.{ApartIn, HurricaneIn, PlanePointIn, WindsIn, TableIn, BetweenRows};
ghost use Rattle.hurricane.specs.Field.{distance_of, hundredths_of, deficit_of, straight, wind_of, angle_for, point_for};

use super::{Hurricane, PlanePoint, WindRow};
use ranges::{floor_div, whole_root};
use records::Point;
use records::groups::Group;
use records::limits::{CALM_ANGLE, is_calm};

// The scale of the table.
pub const WHOLE: i64 = 10_000;

// The last entry of the table: it stands for any R/r above ten.
const HUNDREDTHS_MOST: i64 = 1_000;

// The distance r of a point from the centre, in 0.1 mile.
pub fn distance(x0: i64, y0: i64, x: i64, y: i64) -> i64
    requires { ApartIn x0 y0 x y }
    ensures { result ≡ distance_of x0 y0 x y }
{
    let across = x - x0;
    let along = y - y0;
    whole_root(1, across * across + along * along)
}

// R/r in hundredths, as a place of the table.
pub fn hundredths(radius: i64, r: i64) -> usize
    requires { (pos 1 ≤ℤ radius) × ((radius ≤ℤ pos 2000) × (pos 0 ≤ℤ r)) }
    ensures value { result ≡ nat_abs (hundredths_of radius r) }
    ensures upper_bound { result < 1001 }
{
    if r <= 0 {
        return HUNDREDTHS_MOST as usize;
    }
    HUNDREDTHS_MOST.min(floor_div(100 * radius, r)) as usize
}

// The wind at distance r from two rows on either side of it. A falling wind's change is negative: it is rounded down too, not toward zero.
pub fn wind_between(a: WindRow, b: WindRow, r: i64) -> i64
    requires { BetweenRows a b r }
    ensures { result ≡ straight a b r }
{
    let WindRow {
        radius: from,
        wind: start,
    } = a;
    let WindRow {
        radius: to,
        wind: end,
    } = b;
    start + floor_div((end - start) * (r - from), to - from)
}

// The angle beside a wind: the one that was given, but 0 beside a calm, which check 18 asks for.
pub fn angle_for(wind: i64, angle: i64) -> i64
    ensures { result ≡ angle_for wind angle }
{
    if is_calm(wind) { CALM_ANGLE } else { angle }
}

// A hurricane's field: the table of factors, the hurricane and its winds, each within its limits.
#[derive(Clone, Copy, Debug, PartialEq, Eq)]
pub struct Field<'a> {
    pub table: &'a [i64],
    pub hurricane: Hurricane,
    pub winds: &'a [i64],
    ghost table_in: { TableIn table.now },
    ghost hurricane_in: { HurricaneIn hurricane },
    ghost winds_in: { WindsIn winds.now },
}

impl Field<'_> {
    // The deficit by the table's place m, in 0.01 inch of mercury.
    pub fn deficit_at(&self, m: usize) -> i64
        requires { m < 1001 }
        ensures { result ≡ deficit_of (at self.now.table.now) self.now.hurricane.central self.now.hurricane.edge m }
    {
        let Hurricane { central, edge, .. } = self.hurricane;
        let factor = self.table[m];
        floor_div((edge - central) * (WHOLE - factor), WHOLE)
    }

    // The wind at distance r by the list, of whose rows n have a radius of at most r.
    pub fn wind_at(&self, r: i64) -> i64
        ensures { result ≡ wind_of self.now.winds.now r }
    {
        let rows = self.winds.as_chunks::<{ WindRow::NUMBERS }>().0;
        match rows.partition_point(|row| WindRow::read(row).radius <= r) {
            0 => WindRow::read(&rows[0]).wind,
            n if n == rows.len() => WindRow::read(&rows[n - 1]).wind,
            n => wind_between(WindRow::read(&rows[n - 1]), WindRow::read(&rows[n]), r),
        }
    }

    // What the record has at a point.
    pub fn point_for(&self, p: PlanePoint) -> Point
        requires { PlanePointIn p }
        ensures { result ≡ point_for (at self.now.table.now) self.now.hurricane self.now.winds.now p }
    {
        let h = self.hurricane;
        let r = distance(h.x, h.y, p.x, p.y);
        let wind = self.wind_at(r);
        let deficit = self.deficit_at(hundredths(h.radius, r));
        let angle = angle_for(wind, p.angle);
        Point {
            wind,
            angle,
            deficit,
        }
    }
}
