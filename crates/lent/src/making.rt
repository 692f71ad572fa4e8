// Making a storm record from a hurricane's few numbers, by our own table or by one that is lent. Every check and every number is `hurricane`'s own.
#![tactic(auto, unfolding(crate::specs::Making::make_call, crate::specs::Making::make_by_call))]

ghost use Rattle.std.specs.Prelude.{◌≡◌};
ghost use Rattle.lent.specs.Making.{hurricane_given, left_make, made_told, Makes, MakesBy};
ghost use Rattle.lent.specs.Numbers.{told_number, told_answer};

use super::numbers::{ANSWER, WRONG_BUFFER, tell};
use hurricane::Hurricane;
use records::{Closing, Refusal};

// What a call is given, in `hurricane`'s terms.
fn hurricane_lent(central: i64, edge: i64, radius: i64, x: i64, y: i64) -> Hurricane
    ensures { result ≡ hurricane_given central edge radius x y }
{
    Hurricane {
        central,
        edge,
        radius,
        x,
        y,
    }
}

// The answer has the seconds and the tide of a record that was made.
fn tell_made(answer: &mut [i64; ANSWER], made: Result<Closing, Refusal>) -> u64
    ensures value { result ≡ told_number (made_told made) }
    ensures answer_after { answer.new ≡ told_answer (made_told made) }
{
    match made {
        Ok(given) => tell(answer, Ok([0, given.seconds, given.tide])),
        Err(refusal) => tell(answer, Err(refusal)),
    }
}

// `winds` has 2 numbers a row of the list, `sites` 3 a point, `storm` room for 3 a point. The answer has the seconds and the tide as they were
// given. The number of the refusal is returned, 0 where the record is made.
pub fn make_record(
    central: i64,
    edge: i64,
    radius: i64,
    x: i64,
    y: i64,
    seconds: i64,
    tide: i64,
    winds: &[i64],
    sites: &[i64],
    storm: &mut [i64],
    answer: &mut [i64],
) -> u64
    ensures { Makes central edge radius x y seconds tide winds.now sites.now storm.old answer.old (left_make result storm.new answer.new) }
{
    let Some(answer) = answer.as_mut_array() else {
        return WRONG_BUFFER;
    };
    let h = hurricane_lent(central, edge, radius, x, y);
    let closing = Closing { seconds, tide };
    let made = hurricane::make_record(h, closing, winds, sites, storm);
    tell_made(answer, made)
}

// The same by the table in `factors`.
pub fn make_record_with(
    factors: &[i64],
    central: i64,
    edge: i64,
    radius: i64,
    x: i64,
    y: i64,
    seconds: i64,
    tide: i64,
    winds: &[i64],
    sites: &[i64],
    storm: &mut [i64],
    answer: &mut [i64],
) -> u64
    ensures { MakesBy factors.now central edge radius x y seconds tide winds.now sites.now storm.old answer.old (left_make result storm.new answer.new) }
{
    let Some(answer) = answer.as_mut_array() else {
        return WRONG_BUFFER;
    };
    let made = hurricane::make_record_with(
        factors,
        hurricane_lent(central, edge, radius, x, y),
        Closing { seconds, tide },
        winds,
        sites,
        storm,
    );
    tell_made(answer, made)
}
