// What a caller's numbers stand for beside points, rows and the state: `answer` has 3 (place of a refusal, low and high of the shore height).
ghost use Rattle.std.specs.Prelude.{◌≡◌};
ghost use Rattle.lent.specs.Numbers.{place_number, told_number, told_answer};

use march::State;
use records::Refusal;
use records::groups::Group;

pub const STATE: usize = State::NUMBERS;

pub const ANSWER: usize = 3;

// What is returned where a slice that has a fixed length is lent with another; then nothing is touched.
pub const WRONG_BUFFER: u64 = 255;

// A place as a number with sign. No place is past the greatest such number: a slice has not so many points.
pub fn place_number(place: usize) -> i64
    ensures { result ≡ place_number place }
{
    i64::try_from(place).unwrap_or(i64::MAX)
}

// How every call ends: the answer has these three numbers, or a refusal's place, and the refusal's number is returned, 0 where nothing is
// refused.
pub fn tell(answer: &mut [i64; ANSWER], found: Result<[i64; ANSWER], Refusal>) -> u64
    ensures value { result ≡ told_number found }
    ensures answer_after { answer.new ≡ told_answer found }
{
    let (number, numbers) = match found {
        Ok(numbers) => (0, numbers),
        Err(refusal) => (refusal.number(), [place_number(refusal.place), 0, 0]),
    };
    *answer = numbers;
    number
}
