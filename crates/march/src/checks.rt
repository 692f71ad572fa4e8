// Checks 5 to 9 of document 01, 18 and 19 of document 02, in their order: the first that fails decides, and within it the first bad point or row.
// All that is looked at is the caller's and may hold anything; nothing overflows on it and nothing past a slice is read.
ghost use Rattle.std.specs.Prelude.{◌≡◌, ◌&&◌, ◌||◌, true, ℕ, eqb, ◌-◌, ◌*◌, ◌≤◌, ◌<◌, length, pos, ◌-ℤ◌};
ghost use Rattle.ranges.specs.Bounds.{Sized};
ghost use Rattle.records.specs.Limits.{length_ok};
ghost use Rattle.records.specs.Shapes.{traverse_of, storm_of};
ghost use Rattle.records.specs.CheckOrder.{first_of};
ghost use Rattle.march.specs.Checks.{stations_ok, spacing_ok, traverse_check, open_of, opened_by, places_ok, lent_check, times_ok, record_check, checks_of};

use super::State;
use records::groups::{count, group_at};
use records::limits::{
    ELAPSED, LENGTH, SHORE, TIDE, build_has, calm_ok, count_ok, head_ok, inside, point_ok, row_ok,
    seconds_ok, station_ok,
};
use records::{Closing, Kind, Point, Refusal, Row, Station, StormRecord, Traverse, each, need};

// ---- a traverse

// How much less a distance is than the one before. The first place has none before it.
pub fn length_ok(i: usize, before: i64, here: i64) -> bool
    requires { (Sized (pos 6400) before) × (Sized (pos 6400) here) }
    ensures { result ≡ (eqb i 0 || length_ok (before -ℤ here)) }
{
    i == 0 || inside(before - here, LENGTH)
}

// The rule of distances at place i of n, after check 6: no difference of distances overflows.
pub fn spacing_ok(points: &[i64], n: usize, i: usize) -> bool
    requires { (2 * n ≤ length points.now) × ((i < n) × ((j : ℕ) → j < n → stations_ok points.now j ≡ true)) }
    ensures { result ≡ spacing_ok n points.now i }
{
    let before = group_at::<Station>(points, i.saturating_sub(1)).distance;
    let here = group_at::<Station>(points, i).distance;
    length_ok(i, before, here) && (i + 1 != n || inside(here, SHORE))
}

// Checks 5, 19, 6 and 7, where a traverse may have `most` points in this build. It belongs into taking a record: called from there, it makes the record of a
// long traverse slower.
#[inline(always)]
#[tactic(auto, unfolding(crate::specs::Checks::traverse_checks, records::specs::CheckOrder::first_of))]
pub fn check_traverse(most: usize, traverse: Traverse) -> Result<(), Refusal>
    ensures { result ≡ traverse_check most (traverse_of traverse.entry) }
{
    let points = traverse.points;
    let n = count::<Station>(points);
    need(count_ok(n), Refusal::new(Kind::Points, n))?;
    need(build_has(most, n), Refusal::new(Kind::PanelPoints, n))?;
    need(head_ok(traverse.head), Refusal::new(Kind::TraverseValue, 0))?;
    each(Kind::TraverseValue, n, |i| station_ok(group_at(points, i)))?;
    each(Kind::Distance, n, |i| spacing_ok(points, n, i))
}

// Opening a traverse, which may have `most` points: no row is read or written. Open to callers: every argument may be anything whatever.
#[tactic(auto, unfolding(crate::specs::Checks::open_of))]
pub fn open_traverse(most: usize, traverse: Traverse) -> Result<State, Refusal>
    ensures { opened_by result ≡ open_of most (traverse_of traverse.entry) }
{
    check_traverse(most, traverse)?;
    Ok(State::fresh())
}

// ---- what is lent with a record

// Setup places: none, or two for each of n segments. Tested without a product that could overflow.
pub fn places_ok(places: usize, n: usize) -> bool
    ensures { result ≡ places_ok places n }
{
    places == 0 || places % 2 == 0 && places / 2 == n
}

// Rows one for each segment, points as many as the traverse's, and setup places.
pub fn counts_ok(points: usize, given: usize, rows: usize, places: usize) -> bool
    requires { 1 ≤ points }
    ensures { result ≡ (eqb rows (points - 1) && (eqb given points && places_ok places (points - 1))) }
{
    let n = points - 1;
    rows == n && given == points && places_ok(places, n)
}

// Check 8 for a traverse of so many points, a record of `given` points and so many setup places.
#[tactic(auto, unfolding(crate::specs::Checks::lent_checks, records::specs::CheckOrder::first_of))]
pub fn check_lent(points: usize, given: usize, rows: &[i64], places: usize) -> Result<(), Refusal>
    requires { 2 ≤ points }
    ensures { result ≡ lent_check points given rows.now places }
{
    let fit = counts_ok(points, given, count::<Row>(rows), places);
    need(fit, Refusal::new(Kind::Lent, 0))?;
    each(Kind::Lent, points - 1, |i| row_ok(group_at(rows, i)))
}

// ---- a record

// Check 9 before the points. The new elapsed time is formed only of numbers that passed, so that it fits.
pub fn times_ok(closing: Closing, state: State) -> bool
    ensures { result ≡ times_ok closing state }
{
    seconds_ok(state.started, closing.seconds)
        && inside(closing.tide, TIDE)
        && inside(state.elapsed, ELAPSED)
        && inside(state.elapsed + closing.seconds, ELAPSED)
}

// Checks 9 and 18 for a traverse of n points: all points by 9, then all by 18.
#[tactic(auto, unfolding(crate::specs::Checks::record_checks, records::specs::CheckOrder::first_of))]
pub fn check_record(n: usize, storm: StormRecord, state: State) -> Result<(), Refusal>
    requires { 3 * n ≤ length storm.points.now }
    ensures { result ≡ record_check n (storm_of storm.entry) state }
{
    let points = storm.points;
    need(
        times_ok(storm.closing, state),
        Refusal::new(Kind::RecordValue, 0),
    )?;
    each(Kind::RecordValue, n, |i| point_ok(group_at(points, i)))?;
    each(Kind::CalmAngle, n, |i| calm_ok(group_at(points, i)))
}

// ---- all of them

// All of them, as taking a record makes them, with so many setup places.
pub fn check_all(
    most: usize,
    traverse: Traverse,
    storm: StormRecord,
    state: State,
    rows: &[i64],
    places: usize,
) -> Result<(), Refusal>
    ensures { result ≡ first_of (checks_of most (traverse_of traverse.entry) (storm_of storm.entry) state rows.now places) }
{
    check_traverse(most, traverse)?;
    let n = count::<Station>(traverse.points);
    let given = count::<Point>(storm.points);
    check_lent(n, given, rows, places)?;
    check_record(n, storm, state)
}
