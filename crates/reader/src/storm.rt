// The text of `storm.txt`: its names line, and record after record, held whole or in a window. A record's numbers go into a slice that the
// caller lends: seconds, tide, and then wind, angle and deficit of each point.
#![tactic(auto, unfolding(crate::specs::Storm::storm_start, crate::specs::Storm::next_left, crate::specs::Storm::too_few, crate::specs::Storm::next_at, crate::specs::Storm::kept_at, crate::specs::Storm::next_of, records::specs::Limits::count_ok, crate::specs::Storm::start_step, crate::specs::Storm::holds_record, crate::specs::Storm::record_step_left))]

ghost use Rattle.std.specs.Prelude.{◌≡◌, length};
ghost use Rattle.reader.specs.Lines.{leaves};
ghost use Rattle.reader.specs.Storm.{storm_start, next_left, start_step, holds_record, record_step_left};
ghost use Rattle.reader.specs.declared.storm.Halt.TheVariants.{Refused};

use crate::{Cursor, Window};
use records::groups::Group;
use records::limits::count_ok;
use records::{Closing, Kind, Point, Refusal, need};

// How many values a line of a record has.
const VALUES: usize = Closing::NUMBERS + Point::NUMBERS;

// Why reading in a window stops before an answer: more of the text is needed, or the text is refused.
#[derive(Clone, Copy, Debug, PartialEq, Eq)]
pub enum Halt {
    More,
    Refused(Refusal),
}

impl From<Refusal> for Halt {
    ghost from_gives = { λ r h. h ≡ Refused r };

    fn from(r: Refusal) -> Halt {
        Halt::Refused(r)
    }
}

// The names line of a storm text.
pub fn storm_start(s: &[u8]) -> Result<Cursor, Refusal>
    ensures { result ≡ storm_start s.now }
{
    Cursor { at: 0, line: 0 }.names(s, b"seconds tide wind angle deficit\n")
}

impl Cursor {
    // Reads the next record of a storm text, for a traverse of n points, into the first 2 + 3·n of the lent numbers, and gives the cursor past
    // it, or none where the text has ended. More of the numbers stay as lent.
    pub fn next_record(
        self,
        s: &[u8],
        n: usize,
        numbers: &mut [i64],
    ) -> Result<Option<Cursor>, Refusal>
        ensures { leaves result numbers.new ≡ next_left s.now n self.at self.line numbers.old }
    {
        need(count_ok(n), Refusal::new(Kind::Points, n))?;
        need(
            Closing::NUMBERS + Point::NUMBERS * n <= numbers.len(),
            Refusal::new(Kind::Lent, 0),
        )?;
        if self.at >= s.len() {
            need(self.line > 1, Refusal::new(Kind::Ended, self.line))?;
            return Ok(None);
        }
        let past = self.lines(s, VALUES, Closing::NUMBERS, n, numbers)?;
        Ok(Some(past))
    }
}

// The names line of a storm text, in a window.
pub fn storm_start_step(window: Window) -> Result<Cursor, Halt>
    ensures { result ≡ start_step window.entry.bytes.now window.entry.last }
{
    if !window.holds(0, 32) {
        return Err(Halt::More);
    }
    Ok(storm_start(window.bytes)?)
}

impl Window<'_> {
    // Whether it is enough for the next record.
    fn holds_record(self, n: usize, at: usize) -> bool
        ensures { result ≡ holds_record (length self.entry.bytes.now) self.entry.last n at }
    {
        !count_ok(n) || self.holds(at, n * 55)
    }
}

impl Cursor {
    // Reads the next record in a window, or halts where more of the text is needed and leaves the numbers as lent.
    pub fn record_step(
        self,
        window: Window,
        n: usize,
        numbers: &mut [i64],
    ) -> Result<Option<Cursor>, Halt>
        ensures { leaves result numbers.new ≡ record_step_left window.entry.bytes.now window.entry.last n self.at self.line numbers.old }
    {
        if !window.holds_record(n, self.at) {
            return Err(Halt::More);
        }
        Ok(self.next_record(window.bytes, n, numbers)?)
    }
}
