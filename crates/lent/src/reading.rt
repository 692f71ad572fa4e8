// The text of `traverse.txt` and of `storm.txt`, any bytes, read into a caller's numbers. Every check is the reader's own. What is read goes into
// numbers of the call's own first, so that a refused text leaves what is lent as it was.
#![tactic(auto, unfolding(crate::specs::Texts::traverse_buffers, crate::specs::Texts::read_traverse_call, crate::specs::Texts::start_of, crate::specs::Texts::record_buffers, crate::specs::Texts::read_record_call))]

ghost use Rattle.std.specs.Prelude.{◌≡◌};
ghost use Rattle.reader.specs.Lines.{leaves};
ghost use Rattle.lent.specs.Texts.{left_traverse, ReadsTraverse, cursor_of, cursor_numbers, start_of, record_from, left_record, ReadsRecord};

use super::numbers::{WRONG_BUFFER, place_number, tell};
use reader::Cursor;
use records::groups::Group;
use records::limits::POINTS_MOST;
use records::{Closing, Head, Point, Refusal, Station};

// How many numbers are lent for a traverse's head, for its points, for a cursor, for a record's values and for its points.
const HEAD: usize = Head::NUMBERS;

const POINTS: usize = Station::NUMBERS * POINTS_MOST;

const CURSOR: usize = 2;

const VALUES: usize = Closing::NUMBERS;

const STORM: usize = Point::NUMBERS * POINTS_MOST;

const RECORD: usize = VALUES + STORM;

// Reads a traverse text: 3 numbers of values, 2 to each of 65 points, and in the answer how many points there are.
pub fn read_traverse(text: &[u8], head: &mut [i64], points: &mut [i64], answer: &mut [i64]) -> u64
    ensures { ReadsTraverse text.now head.old points.old answer.old (left_traverse result head.new points.new answer.new) }
{
    let Some(head) = head.as_mut_array::<HEAD>() else {
        return WRONG_BUFFER;
    };
    let Some(points) = points.as_mut_array::<POINTS>() else {
        return WRONG_BUFFER;
    };
    let Some(answer) = answer.as_mut_array() else {
        return WRONG_BUFFER;
    };
    let mut numbers = [0; POINTS];
    match reader::read_traverse(text, &mut numbers) {
        Ok(found) => {
            found.head.write(head);
            *points = numbers;
            tell(answer, Ok([0, place_number(found.count), 0]))
        }
        Err(refusal) => tell(answer, Err(refusal)),
    }
}

// A cursor as it is lent; a negative number is read as 0.
fn load_cursor(numbers: &[i64; CURSOR]) -> Cursor
    ensures { result ≡ cursor_of numbers.now }
{
    Cursor {
        at: usize::try_from(numbers[0]).unwrap_or(0),
        line: usize::try_from(numbers[1]).unwrap_or(0),
    }
}

fn store_cursor(numbers: &mut [i64; CURSOR], c: Cursor)
    ensures { numbers.new ≡ cursor_numbers c }
{
    *numbers = [place_number(c.at), place_number(c.line)];
}

// The names line, where nothing was read so far.
fn start_of(text: &[u8], from: Cursor) -> Result<Cursor, Refusal>
    ensures { result ≡ start_of text.now from }
{
    if from.at == 0 && from.line == 0 {
        reader::storm_start(text)
    } else {
        Ok(from)
    }
}

// The next record from a cursor on.
fn record_from(
    from: Cursor,
    text: &[u8],
    count: usize,
    numbers: &mut [i64],
) -> Result<Option<Cursor>, Refusal>
    ensures { leaves result numbers.new ≡ record_from (start_of text.now from) text.now count numbers.old }
{
    start_of(text, from)?.next_record(text, count, numbers)
}

// Reads the next record of a storm text for a traverse of so many points, and before the first one the names line.
pub fn read_record(
    text: &[u8],
    count: usize,
    cursor: &mut [i64],
    values: &mut [i64],
    storm: &mut [i64],
    answer: &mut [i64],
) -> u64
    ensures { ReadsRecord text.now count cursor.old values.old storm.old answer.old (left_record result cursor.new values.new storm.new answer.new) }
{
    let Some(cursor) = cursor.as_mut_array() else {
        return WRONG_BUFFER;
    };
    let Some(values) = values.as_mut_array::<VALUES>() else {
        return WRONG_BUFFER;
    };
    let Some(storm) = storm.as_mut_array::<STORM>() else {
        return WRONG_BUFFER;
    };
    let Some(answer) = answer.as_mut_array() else {
        return WRONG_BUFFER;
    };
    let mut numbers = [0; RECORD];
    match record_from(load_cursor(cursor), text, count, &mut numbers) {
        Ok(Some(past)) => {
            let (closing, rest) = numbers.split_at(VALUES);
            store_cursor(cursor, past);
            values.copy_from_slice(closing);
            storm.copy_from_slice(rest);
            tell(answer, Ok([0, 1, 0]))
        }
        Ok(None) => tell(answer, Ok([0, 0, 0])),
        Err(refusal) => tell(answer, Err(refusal)),
    }
}
