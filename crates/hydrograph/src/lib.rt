// The listing of a run, turn by turn: a window of `storm.txt` in, a line of the hydrograph out. Everything that decides what is printed
// stands here and below; a program above only moves bytes. The run, the traverse's points, the record that is read and the rows are lent by the
// caller.
#![tactic(auto)]

ghost use Rattle.std.specs.Prelude.{◌≡◌, [], ◌+◌, ◌≤◌, length, leb};
ghost use Rattle.records.specs.Shapes.{traverse_of, count};
ghost use Rattle.listing.specs.Lines.{line_text};
ghost use Rattle.listing.specs.Put.{written};
ghost use Rattle.hydrograph.specs.Listing.{refusal_line};
ghost use Rattle.reader.specs.Storm.{record_size, record_in};
ghost use Rattle.hydrograph.specs.declared.Turn.TheVariants as turn;
ghost use Rattle.hydrograph.specs.Turns.{taken_said, start_turn, record_heard, turn_heard, line_room, left_turn, printed, turn_left, fresh_run, begin_of};

use listing::Line;
use listing::decimals::has_room;
use march::State;
use reader::{Cursor, Halt, Window};
use records::groups::{Group, count, group_at};
use records::limits::POINTS_MOST;
use records::{Closing, Point, Refusal, Station, StormRecord, Traverse};

// What is carried from turn to turn, lent beside the numbers: the cursor in the window, and the state.
#[derive(Clone, Copy, Debug, PartialEq, Eq)]
pub struct Run {
    pub cursor: Cursor,
    pub state: State,
}

// What a turn did. More: nothing, it needs more of the text. Line: the names line was read, or a record's line put; the place behind it.
// End: the last line was put, or there is none; the place behind it. Full: nothing, there is no room for a line.
#[derive(Clone, Copy, Debug, PartialEq, Eq)]
pub enum Turn {
    More,
    Line(usize),
    End(usize),
    Full,
}

// Room that any line of the listing has: none takes more than 63 bytes, and the definitions ask for 66 (`line_room`).
const LINE: usize = 66;

// Whether a buffer of this size has room for a line behind so many bytes.
fn has_line_room(size: usize, used: usize) -> bool
    ensures { result ≡ leb (used + line_room) size }
{
    has_room(size, used, LINE)
}

// A line, for which there is room; the place behind it.
pub fn put_line(line: Line, out: &mut [u8], used: usize) -> usize
    requires { used + line_room ≤ length out.old }
    ensures place { result ≡ used + length (line_text line) }
    ensures within { result ≤ length out.new }
    ensures out_after { out.new ≡ written (line_text line) used out.old }
{
    // None does not come: no line is longer than the room.
    line.put(out, used).unwrap()
}

// The line of a refusal.
pub fn line_of(refusal: Refusal) -> Line
    ensures { line_text result ≡ refusal_line refusal }
{
    Line::Refused {
        number: refusal.number(),
        place: refusal.place as u64,
    }
}

// A refusal is the last line.
fn refuse(refusal: Refusal, out: &mut [u8], used: usize) -> Turn
    requires { used + line_room ≤ length out.old }
    ensures value { result ≡ turn.End (used + length (refusal_line refusal)) }
    ensures out_after { out.new ≡ written (refusal_line refusal) used out.old }
{
    Turn::End(put_line(line_of(refusal), out, used))
}

// The record that was read into the first of the numbers, up to the cursor c: its line, or its refusal. No setup place is lent: Level B.
fn taken(
    traverse: Traverse,
    numbers: &[i64],
    run: &mut Run,
    c: Cursor,
    rows: &mut [i64],
    out: &mut [u8],
    used: usize,
) -> Turn
    requires { (used + line_room ≤ length out.old) × (record_size (count (traverse_of traverse)) ≤ length numbers.now) }
    ensures { left_turn result run.new numbers.now rows.new out.new ≡ printed (taken_said (traverse_of traverse.entry) (record_in (count (traverse_of traverse.entry)) numbers.now) c.at c.line run.old.state rows.old) run.old numbers.now rows.old out.old used }
{
    let end = Closing::NUMBERS + Point::NUMBERS * count::<Station>(traverse.points);
    let storm = StormRecord {
        closing: group_at(numbers, 0),
        points: &numbers[Closing::NUMBERS..end],
    };
    match march::take_record(POINTS_MOST, traverse, storm, &mut run.state, rows, &mut []) {
        Ok(height) => {
            run.cursor = c;
            let line = Line::Record {
                elapsed: run.state.elapsed,
                low: height.low,
                high: height.high,
            };
            Turn::Line(put_line(line, out, used))
        }
        Err(refusal) => refuse(refusal, out, used),
    }
}

// The names line of the storm, which prints nothing.
fn start_turn(run: &mut Run, window: Window, out: &mut [u8], used: usize) -> Turn
    requires { used + line_room ≤ length out.old }
    ensures { left_turn result run.new [] [] out.new ≡ printed (start_turn window.entry.bytes.now window.entry.last) run.old [] [] out.old used }
{
    match reader::storm_start_step(window) {
        Err(Halt::More) => Turn::More,
        Err(Halt::Refused(refusal)) => refuse(refusal, out, used),
        Ok(cursor) => {
            run.cursor = cursor;
            Turn::Line(used)
        }
    }
}

// The next record of the storm.
fn record_turn(
    traverse: Traverse,
    run: &mut Run,
    window: Window,
    numbers: &mut [i64],
    rows: &mut [i64],
    out: &mut [u8],
    used: usize,
) -> Turn
    requires { used + line_room ≤ length out.old }
    ensures { left_turn result run.new numbers.new rows.new out.new ≡ printed (record_heard (traverse_of traverse.entry) window.entry.bytes.now window.entry.last run.old.cursor.at run.old.cursor.line run.old.state rows.old numbers.old).said run.old (record_heard (traverse_of traverse.entry) window.entry.bytes.now window.entry.last run.old.cursor.at run.old.cursor.line run.old.state rows.old numbers.old).numbers rows.old out.old used }
{
    let n = count::<Station>(traverse.points);
    match run.cursor.record_step(window, n, numbers) {
        Err(Halt::More) => Turn::More,
        Err(Halt::Refused(refusal)) => refuse(refusal, out, used),
        Ok(None) => Turn::End(used),
        Ok(Some(c)) => taken(traverse, numbers, run, c, rows, out, used),
    }
}

// One turn on a window of the storm: the names line before any line was read, else the next record, which is read
// into the lent numbers and marched. Where the output has no room for a line, nothing is done. Open to callers: every argument may be anything
// whatever.
pub fn storm_turn(
    traverse: Traverse,
    run: &mut Run,
    window: Window,
    numbers: &mut [i64],
    rows: &mut [i64],
    out: &mut [u8],
    used: usize,
) -> Turn
    ensures { left_turn result run.new numbers.new rows.new out.new ≡ turn_left (turn_heard (traverse_of traverse.entry) window.entry.bytes.now window.entry.last run.old.cursor.at run.old.cursor.line run.old.state rows.old numbers.old) run.old numbers.old rows.old out.old used }
{
    if !has_line_room(out.len(), used) {
        return Turn::Full;
    }
    if run.cursor.line == 0 {
        return start_turn(run, window, out, used);
    }
    record_turn(traverse, run, window, numbers, rows, out, used)
}

// Opens a traverse that was read: the names line or the refusal, and a fresh run. Open to callers: any traverse whatever.
pub fn begin(traverse: Traverse, out: &mut [u8], used: usize) -> (Turn, Run)
    ensures { left_turn result.0 result.1 [] [] out.new ≡ turn_left (record { said = begin_of (traverse_of traverse.entry) []; numbers = [] }) fresh_run [] [] out.old used }
{
    let run = Run {
        cursor: Cursor { at: 0, line: 0 },
        state: State::fresh(),
    };
    if !has_line_room(out.len(), used) {
        return (Turn::Full, run);
    }
    match march::open_traverse(POINTS_MOST, traverse) {
        Ok(_) => (Turn::Line(put_line(Line::Names, out, used)), run),
        Err(refusal) => (refuse(refusal, out, used), run),
    }
}
