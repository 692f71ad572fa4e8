// Taking a record, with the rows among a slice of numbers.
#![tactic(auto, unfolding(crate::specs::Numbers::buffers_ok, crate::specs::Calls::rows_size, crate::specs::Calls::take_numbers))]

ghost use Rattle.std.specs.Prelude.{◌≡◌, ◌-◌, ◌≤◌};
ghost use Rattle.records.specs.Shapes.{traverse_of, storm_of};
ghost use Rattle.march.specs.TakeBounds.{lesser};
ghost use Rattle.lent.specs.Calls.{rows_size, left_numbers, take_numbers};

use super::numbers::{STATE, WRONG_BUFFER, tell};
use march::State;
use records::groups::Group;
use records::limits::SEGMENTS_MOST;
use records::{Row, StormRecord, Traverse};

// How many numbers n rows are, where so many may be lent and are there; else 0.
pub fn rows_size(n: usize, len: usize) -> usize
    ensures { result ≡ rows_size n len }
{
    if n > SEGMENTS_MOST || Row::NUMBERS * n > len {
        return 0;
    }
    Row::NUMBERS * n
}

// Takes a record of a traverse that may have `most` points, with n rows in the first of `numbers`, and scratch for N segments.
pub fn take_numbers<const N: usize>(
    most: usize,
    traverse: Traverse,
    storm: StormRecord,
    state: &mut [i64],
    n: usize,
    numbers: &mut [i64],
    setup: &mut [i64],
    answer: &mut [i64],
) -> u64
    requires { (lesser (most - 1) n ≤ N) × (N ≤ 64) }
    ensures { left_numbers result state.new numbers.new setup.new answer.new ≡ take_numbers most (traverse_of traverse.entry) (storm_of storm.entry) state.old n numbers.old setup.old answer.old }
{
    let Some(state) = state.as_mut_array::<STATE>() else {
        return WRONG_BUFFER;
    };
    let Some(answer) = answer.as_mut_array() else {
        return WRONG_BUFFER;
    };
    let size = rows_size(n, numbers.len());
    let rows = &mut numbers[..size];
    let mut next = State::read(state);
    match march::take_with::<N>(most, traverse, storm, &mut next, rows, setup) {
        Ok(height) => {
            next.write(state);
            tell(answer, Ok([0, height.low, height.high]))
        }
        Err(refusal) => tell(answer, Err(refusal)),
    }
}
