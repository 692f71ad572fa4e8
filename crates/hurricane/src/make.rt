// Making a storm record: checks, and only then the numbers of every point into the lent room.
ghost use Rattle.std.specs.Prelude.{◌≡◌, ◌*◌, length};
ghost use Rattle.records.specs.Groups.{at, of_point, groups, flat};
ghost use Rattle.hurricane.specs.Bounds.{SitesIn, TableIn};
ghost use Rattle.hurricane.specs.Factor.{factor_entry};
ghost use Rattle.hurricane.specs.Groups.{site_count, plane_point_at};
ghost use Rattle.hurricane.specs.Field.{point_for};
ghost use Rattle.hurricane.specs.Make.{asked, make_of, make_by, left_by};

use super::checks::check_make;
use super::field::Field;
use super::profile::check_profile;
use super::table::factor_table;
use super::{Hurricane, PlanePoint};
use records::groups::{Group, count, group_at};
use records::{Closing, Point, Refusal, groups};

// The points of the record, one after the other.
pub fn fill(field: &Field, sites: &[i64], out: &mut [i64])
    requires { SitesIn sites.now × (length out.old ≡ 3 * site_count sites.now) }
    ensures { out.new ≡ flat of_point (groups (λ i. point_for (at field.now.table.now) field.now.hurricane field.now.winds.now (plane_point_at sites.now i)) (site_count sites.now)) }
{
    let n = count::<PlanePoint>(sites);
    groups::fill(out, n, |i| field.point_for(group_at(sites, i)));
}

// Makes a record with a table of factors, which may be any that is within its limits.
pub fn make_with(
    table: &[i64],
    h: Hurricane,
    closing: Closing,
    winds: &[i64],
    sites: &[i64],
    room: &mut [i64],
) -> Result<Closing, Refusal>
    requires { TableIn table.now }
    ensures { left_by result room.new ≡ make_of (asked (at table.now) h closing winds.now sites.now room.old) }
{
    check_make(h, winds, sites, room.len())?;
    let field = Field {
        table,
        hurricane: h,
        winds,
    };
    let size = Point::NUMBERS * count::<PlanePoint>(sites);
    fill(&field, sites, &mut room[..size]);
    Ok(closing)
}

// Makes the record of one place of the track. Open to callers: every argument may be anything whatever.
pub fn make_record(
    h: Hurricane,
    closing: Closing,
    winds: &[i64],
    sites: &[i64],
    room: &mut [i64],
) -> Result<Closing, Refusal>
    ensures { left_by result room.new ≡ make_of (asked factor_entry h closing winds.now sites.now room.old) }
{
    make_with(factor_table(), h, closing, winds, sites, room)
}

// The same by a table that a caller lends, in place of ours. Open to callers too.
pub fn make_record_with(
    table: &[i64],
    h: Hurricane,
    closing: Closing,
    winds: &[i64],
    sites: &[i64],
    room: &mut [i64],
) -> Result<Closing, Refusal>
    ensures { left_by result room.new ≡ make_by table.now h closing winds.now sites.now room.old }
{
    check_profile(table)?;
    make_with(table, h, closing, winds, sites, room)
}
