// The library for C and for languages that call C. `include/surge.h` says it in C's terms. Each call is `lent`'s. Opening a traverse and taking a record
// are there twice, with the limit on points of our own program and with that of the harbour panel. The rows that are lent for a record are a slice of row
// structs: they are only moved to numbers and back; everything else is `take_numbers`.
#![tactic(auto, unfolding(crate::specs::Calls::take_call, lent::specs::Calls::open_call))]

ghost use Rattle.std.specs.Prelude.{◌≡◌, ◌-◌, ◌*◌, ◌≤◌, length};
ghost use Rattle.records.specs.Limits.{most_points, panel_points};
ghost use Rattle.records.specs.Shapes.{traverse_of, storm_of};
ghost use Rattle.march.specs.TakeBounds.{lesser};
ghost use Rattle.lent.specs.Calls.{traverse_given, storm_given, left_open, Opens};
ghost use Rattle.lent.specs.Decks.{left_text, ReadsDeck};
ghost use Rattle.lent.specs.Making.{left_make, Makes, MakesBy};
ghost use Rattle.lent.specs.Profiles.{left_profile, LoadsProfile};
ghost use Rattle.lent.specs.Texts.{left_traverse, ReadsTraverse, left_record, ReadsRecord};
ghost use Rattle.surge_c.specs.Rows.{laid, backed};
ghost use Rattle.surge_c.specs.Calls.{left_rows, take_rows, Takes};

use march::FEW_SEGMENTS;
use records::groups::{Group, group_at, store_group};
use records::limits::{PANEL_POINTS, PANEL_SEGMENTS, POINTS_MOST, SEGMENTS_MOST};
use records::{Closing, Head, Row, StormRecord, Traverse};

// ---- what a call is given, in the march's terms

fn traverse_lent(latitude: i64, friction: i64, initial: i64, points: &[i64]) -> Traverse
    ensures { traverse_of result ≡ traverse_given latitude friction initial points.now }
{
    let head = Head {
        latitude,
        friction,
        initial,
    };
    Traverse { head, points }
}

fn storm_lent(seconds: i64, tide: i64, points: &[i64]) -> StormRecord
    ensures { storm_of result ≡ storm_given seconds tide points.now }
{
    StormRecord {
        closing: Closing { seconds, tide },
        points,
    }
}

// ---- opening a traverse

// Opens a traverse of 65 points at most. `points` has 2 numbers a point. The number of the refusal is returned, 0 where the traverse is accepted.
#[unsafe(no_mangle)]
pub extern "C" fn fennhop_open_traverse(
    latitude: i64,
    friction: i64,
    initial: i64,
    points: &[i64],
    state: &mut [i64],
    answer: &mut [i64],
) -> u64
    ensures { Opens most_points latitude friction initial points.now state.old answer.old (left_open result state.new answer.new) }
{
    let traverse = traverse_lent(latitude, friction, initial, points);
    lent::open_traverse(POINTS_MOST, traverse, state, answer)
}

// The same on the harbour panel: of 17 points at most.
#[unsafe(no_mangle)]
pub extern "C" fn fennhop_panel_open_traverse(
    latitude: i64,
    friction: i64,
    initial: i64,
    points: &[i64],
    state: &mut [i64],
    answer: &mut [i64],
) -> u64
    ensures { Opens panel_points latitude friction initial points.now state.old answer.old (left_open result state.new answer.new) }
{
    let traverse = traverse_lent(latitude, friction, initial, points);
    lent::open_traverse(PANEL_POINTS, traverse, state, answer)
}

// ---- texts, a hurricane and its pressure profile, a card deck

// Reads a traverse text: 3 numbers of values, 2 to each of 65 points, and in the answer how many points there are.
#[unsafe(no_mangle)]
pub extern "C" fn fennhop_read_traverse(
    text: &[u8],
    head: &mut [i64],
    points: &mut [i64],
    answer: &mut [i64],
) -> u64
    ensures { ReadsTraverse text.now head.old points.old answer.old (left_traverse result head.new points.new answer.new) }
{
    lent::read_traverse(text, head, points, answer)
}

// Reads the next record of a storm text for a traverse of so many points, and before the first one the names line.
#[unsafe(no_mangle)]
pub extern "C" fn fennhop_read_record(
    text: &[u8],
    count: usize,
    cursor: &mut [i64],
    values: &mut [i64],
    storm: &mut [i64],
    answer: &mut [i64],
) -> u64
    ensures { ReadsRecord text.now count cursor.old values.old storm.old answer.old (left_record result cursor.new values.new storm.new answer.new) }
{
    lent::read_record(text, count, cursor, values, storm, answer)
}

// Makes a storm record from a hurricane's few numbers. `winds` has 2 numbers a row of the list, `sites` 3 a point; `storm` is room for 3 a point, which
// `fennhop_take_record` can be lent as it is. The answer has the seconds and the tide as they were given.
#[unsafe(no_mangle)]
pub extern "C" fn fennhop_make_record(
    central: i64,
    edge: i64,
    radius: i64,
    x: i64,
    y: i64,
    seconds: i64,
    tide: i64,
    winds: &[i64],
    sites: &[i64],
    storm: &mut [i64],
    answer: &mut [i64],
) -> u64
    ensures { Makes central edge radius x y seconds tide winds.now sites.now storm.old answer.old (left_make result storm.new answer.new) }
{
    lent::make_record(
        central, edge, radius, x, y, seconds, tide, winds, sites, storm, answer,
    )
}

// Makes it by the table in `factors`, 1,001 numbers that are judged first, in place of our own.
#[unsafe(no_mangle)]
pub extern "C" fn fennhop_make_record_with(
    factors: &[i64],
    central: i64,
    edge: i64,
    radius: i64,
    x: i64,
    y: i64,
    seconds: i64,
    tide: i64,
    winds: &[i64],
    sites: &[i64],
    storm: &mut [i64],
    answer: &mut [i64],
) -> u64
    ensures { MakesBy factors.now central edge radius x y seconds tide winds.now sites.now storm.old answer.old (left_make result storm.new answer.new) }
{
    lent::make_record_with(
        factors, central, edge, radius, x, y, seconds, tide, winds, sites, storm, answer,
    )
}

// Loads the table of a pressure profile from its text. `factors` is room for 1,001 numbers, to whose front it goes.
#[unsafe(no_mangle)]
pub extern "C" fn fennhop_load_profile(text: &[u8], factors: &mut [i64], answer: &mut [i64]) -> u64
    ensures { LoadsProfile text.now factors.old answer.old (left_profile result factors.new answer.new) }
{
    lent::load_profile(text, factors, answer)
}

// Turns an old card deck into the text of `traverse.txt`, with the three given values on its second line. `text` is room for it, to whose front it
// goes. The answer has how many bytes were written.
#[unsafe(no_mangle)]
pub extern "C" fn fennhop_read_deck(
    latitude: i64,
    friction: i64,
    initial: i64,
    deck: &[u8],
    text: &mut [u8],
    answer: &mut [i64],
) -> u64
    ensures { ReadsDeck latitude friction initial deck.now text.old answer.old (left_text result text.new answer.new) }
{
    lent::read_deck(latitude, friction, initial, deck, text, answer)
}

// ---- rows as numbers, and back

// The numbers of rows, three to a row, into the first of `numbers`.
fn lay_rows(rows: &[Row], numbers: &mut [i64])
    requires { 3 * length rows.now ≤ length numbers.old }
    ensures { numbers.new ≡ laid (length rows.now) rows.now numbers.old }
{
    for (i, row) in rows.iter().enumerate() {
        store_group(numbers, i, *row);
    }
}

// The rows anew, of the first of `numbers`.
fn put_back(numbers: &[i64], rows: &mut [Row])
    requires { 3 * length rows.old ≤ length numbers.now }
    ensures { rows.new ≡ backed (length rows.old) numbers.now rows.old }
{
    for (i, row) in rows.iter_mut().enumerate() {
        *row = group_at(numbers, i);
    }
}

// ---- taking a record

// Takes a record of a traverse that may have `most` points, with room for SEGMENTS rows, which are so many NUMBERS, and scratch for as many segments. One
// equation for what is returned and for everything lent, whatever is lent.
fn take_rows<const SEGMENTS: usize, const NUMBERS: usize>(
    most: usize,
    traverse: Traverse,
    storm: StormRecord,
    state: &mut [i64],
    rows: &mut [Row],
    setup: &mut [i64],
    answer: &mut [i64],
) -> u64
    requires { (lesser (most - 1) (length rows.old) ≤ SEGMENTS) × ((SEGMENTS ≤ 64) × (NUMBERS ≡ 3 * SEGMENTS)) }
    ensures { left_rows result state.new rows.new setup.new answer.new ≡ take_rows most (traverse_of traverse.entry) (storm_of storm.entry) state.old rows.old setup.old answer.old }
{
    let n = rows.len();
    let m = n.min(SEGMENTS);
    let mut numbers = [0; NUMBERS];
    lay_rows(&rows[..m], &mut numbers);
    let number = lent::take_numbers::<SEGMENTS>(
        most,
        traverse,
        storm,
        state,
        n,
        &mut numbers,
        setup,
        answer,
    );
    // a refused call writes no row
    if number == 0 {
        put_back(&numbers, &mut rows[..m]);
    }
    number
}

// How many numbers the rows are: of few segments, of all that a traverse may have, and of all that it may have on the panel.
const FEW: usize = Row::NUMBERS * FEW_SEGMENTS;

const ALL: usize = Row::NUMBERS * SEGMENTS_MOST;

const PANEL: usize = Row::NUMBERS * PANEL_SEGMENTS;

// Takes a record of a traverse of 65 points at most. `points` has 2 numbers a point, `storm` 3, `setup` none or 2 a segment. Few rows get little room: to
// clear all of it would take longer than their march.
#[unsafe(no_mangle)]
pub extern "C" fn fennhop_take_record(
    latitude: i64,
    friction: i64,
    initial: i64,
    points: &[i64],
    seconds: i64,
    tide: i64,
    storm: &[i64],
    state: &mut [i64],
    rows: &mut [Row],
    setup: &mut [i64],
    answer: &mut [i64],
) -> u64
    ensures { Takes most_points latitude friction initial points.now seconds tide storm.now state.old rows.old setup.old answer.old (left_rows result state.new rows.new setup.new answer.new) }
{
    let traverse = traverse_lent(latitude, friction, initial, points);
    let record = storm_lent(seconds, tide, storm);
    if rows.len() <= FEW_SEGMENTS {
        take_rows::<FEW_SEGMENTS, FEW>(POINTS_MOST, traverse, record, state, rows, setup, answer)
    } else {
        take_rows::<SEGMENTS_MOST, ALL>(POINTS_MOST, traverse, record, state, rows, setup, answer)
    }
}

// The same on the harbour panel: of a traverse of 17 points at most.
#[unsafe(no_mangle)]
pub extern "C" fn fennhop_panel_take_record(
    latitude: i64,
    friction: i64,
    initial: i64,
    points: &[i64],
    seconds: i64,
    tide: i64,
    storm: &[i64],
    state: &mut [i64],
    rows: &mut [Row],
    setup: &mut [i64],
    answer: &mut [i64],
) -> u64
    ensures { Takes panel_points latitude friction initial points.now seconds tide storm.now state.old rows.old setup.old answer.old (left_rows result state.new rows.new setup.new answer.new) }
{
    let traverse = traverse_lent(latitude, friction, initial, points);
    let record = storm_lent(seconds, tide, storm);
    take_rows::<PANEL_SEGMENTS, PANEL>(PANEL_POINTS, traverse, record, state, rows, setup, answer)
}
