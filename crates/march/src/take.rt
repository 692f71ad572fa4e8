// Taking a record: checks, march, and only then the commit to rows and setup places.
ghost use Rattle.std.specs.Prelude.{◌≡◌, true, ◌*◌, ◌≤◌, ◌+ℤ◌, [], cond, eqb, length};
ghost use Rattle.records.specs.Shapes.{traverse_of, storm_of};
ghost use Rattle.march.specs.Given.{given};
ghost use Rattle.march.specs.Checks.{places_ok};
ghost use Rattle.march.specs.Take.{row_numbers, setup_numbers, shore_of, take_of, left};
ghost use Rattle.march.specs.TakeBounds.{most_segments, ShoreAt, AcceptIn};

use super::State;
use super::checks::check_all;
use super::march::march;
use ranges::Range;
use records::groups::{count, fill, group_at};
use records::limits::SEGMENTS_MOST;
use records::{Point, Refusal, Row, StormRecord, Traverse};
use segment::Leg;

// The rows of the legs; and where places are lent, their setup ranges, low then high.
pub fn commit(rows: &mut [i64], setup: &mut [i64], legs: &[Leg])
    requires some { 1 ≤ length legs.now }
    requires room { length rows.old ≡ 3 * length legs.now }
    requires places { places_ok (length setup.old) (length legs.now) ≡ true }
    ensures rows { rows.new ≡ row_numbers legs.now }
    ensures setup { setup.new ≡ cond (eqb (length setup.old) 0) [] (setup_numbers legs.now) }
{
    fill(rows, legs.len(), |i| legs[i].row);
    fill(setup, setup.len() / 2, |i| legs[i].setup);
}

// What the shore height has beside the setup, of n segments.
pub fn shore_of(traverse: Traverse, storm: StormRecord, n: usize) -> i64
    requires { ShoreAt (traverse_of traverse) (storm_of storm) n }
    ensures { result ≡ shore_of (traverse_of traverse.entry) (storm_of storm.entry) }
{
    let shore = group_at::<Point>(storm.points, n);
    segment::shore_base(traverse.head.initial + storm.closing.tide, shore.deficit)
}

// A record is accepted: its seconds are added to the elapsed time, and the height at the shore is that with the last setup.
pub fn accepted(state: &mut State, seconds: i64, base: i64, setup: Range) -> Range
    requires { AcceptIn seconds base state.old setup }
    ensures later { state.new ≡ record { elapsed = state.old.elapsed +ℤ seconds; started = true } }
    ensures height { result ≡ record { low = setup.low +ℤ base; high = setup.high +ℤ base } }
{
    *state = State {
        elapsed: state.elapsed + seconds,
        started: true,
    };
    Range {
        low: setup.low + base,
        high: setup.high + base,
    }
}

// Takes a record where a traverse may have `most` points in this build, with scratch for as many segments as there can be.
pub fn take_in(
    most: usize,
    traverse: Traverse,
    storm: StormRecord,
    state: &mut State,
    rows: &mut [i64],
    setup: &mut [i64],
    legs: &mut [Leg],
) -> Result<Range, Refusal>
    requires { most_segments most rows.old ≤ length legs.old }
    ensures { left result state.new rows.new setup.new ≡ take_of (given most (traverse_of traverse.entry) (storm_of storm.entry) state.old rows.old setup.old) }
{
    check_all(most, traverse, storm, *state, rows, setup.len())?;
    let n = count::<Row>(rows);
    let first = !state.started;
    let legs = &mut legs[..n];
    march(traverse, storm, first, rows, legs)?;
    let base = shore_of(traverse, storm, n);
    commit(rows, setup, legs);
    Ok(accepted(state, storm.closing.seconds, base, legs[n - 1].setup))
}

// Takes a record with scratch for N segments.
pub fn take_with<const N: usize>(
    most: usize,
    traverse: Traverse,
    storm: StormRecord,
    state: &mut State,
    rows: &mut [i64],
    setup: &mut [i64],
) -> Result<Range, Refusal>
    requires { (most_segments most rows.old ≤ N) × (N ≤ 64) }
    ensures { left result state.new rows.new setup.new ≡ take_of (given most (traverse_of traverse.entry) (storm_of storm.entry) state.old rows.old setup.old) }
{
    let none = Leg {
        row: Row::fresh(),
        setup: Range { low: 0, high: 0 },
    };
    let mut legs = [none; N];
    take_in(most, traverse, storm, state, rows, setup, &mut legs)
}

// Few segments get little scratch: to clear all of it would take longer than their march.
pub const FEW_SEGMENTS: usize = 8;

// Takes a record of a storm over a traverse, which may have `most` points: no setup places for Level B, two for each segment for Level C. It answers
// the shore height range, 0.0001 ft, and the state then has the elapsed seconds; a refusal leaves the state and all that was lent as it was. Open to
// callers: every argument may be anything whatever.
pub fn take_record(
    most: usize,
    traverse: Traverse,
    storm: StormRecord,
    state: &mut State,
    rows: &mut [i64],
    setup: &mut [i64],
) -> Result<Range, Refusal>
    ensures { left result state.new rows.new setup.new ≡ take_of (given most (traverse_of traverse.entry) (storm_of storm.entry) state.old rows.old setup.old) }
{
    if count::<Row>(rows) <= FEW_SEGMENTS {
        take_with::<FEW_SEGMENTS>(most, traverse, storm, state, rows, setup)
    } else {
        take_with::<SEGMENTS_MOST>(most, traverse, storm, state, rows, setup)
    }
}
