// The text of `traverse.txt`: two names lines, a value line and any number of points, held whole or by windows. The points go into a slice that
// the caller lends: distance and depth of each. One past its end is only counted.
#![tactic(auto, unfolding(crate::specs::Traverse::stored_at, crate::specs::Traverse::start, crate::specs::Traverse::with_values, crate::specs::Traverse::line_left, crate::specs::Traverse::with_point, crate::specs::Text::more, crate::specs::Traverse::line_at, crate::specs::Traverse::counted_by, crate::specs::Traverse::traverse_read, crate::specs::Traverse::end_at, records::specs::Groups::group_at))]

ghost use Rattle.std.specs.Prelude.{◌≡◌};
ghost use Rattle.reader.specs.Lines.{leaves};
ghost use Rattle.reader.specs.Traverse.{start, held, with_values, stored_at, one_more, value_line, line_at, line_step, line_left, counted_by, end_at, traverse_read, traverse_step, traverse_left};
ghost use Rattle.reader.specs.declared.traverse.Known.TheVariants as known;

use crate::{Cursor, Window};
use records::groups::{Group, count, group_at, store_group};
use records::limits::count_ok;
use records::{Head, Kind, Refusal, Station, need};

// A traverse as far as it was read: its head and its count of points.
#[derive(Clone, Copy, Debug, PartialEq, Eq)]
pub struct TraverseRead {
    pub head: Head,
    pub count: usize,
}

// What is known of a traverse from the lines that were read, beside the lent numbers of its points, and so what comes next: the names line, the
// value line, the names line of the points, or a point.
#[derive(Clone, Copy, Debug, PartialEq, Eq)]
pub enum Known {
    Names,
    Values,
    Columns(Head),
    Points(TraverseRead),
}

// What reading on in a window finds, beside a refusal: the traverse to its end, or that more of the text is needed from the cursor on.
#[derive(Clone, Copy, Debug, PartialEq, Eq)]
pub enum Progress {
    Read(TraverseRead),
    More(Cursor, Known),
}

// Stores point i where the lent numbers have room for it.
fn store_point(points: &mut [i64], i: usize, x: Station)
    ensures { points.new ≡ stored_at points.old i x }
{
    if i >= count::<Station>(points) {
        return;
    }
    store_group(points, i, x);
}

impl TraverseRead {
    // With one point more.
    fn one_more(self) -> Self
        ensures { result ≡ one_more self }
    {
        TraverseRead {
            count: self.count.saturating_add(1),
            ..self
        }
    }

    // Reads a point's line, and stores the point.
    fn point_line(self, c: Cursor, s: &[u8], points: &mut [i64]) -> Result<(Cursor, Known), Refusal>
        ensures { leaves result points.new ≡ line_left (held (known.Points self) points.old) (line_at s.now (held (known.Points self) points.old) c.at c.line) }
    {
        let mut row = [0; Station::NUMBERS];
        let next = c.lines(s, Station::NUMBERS, 0, 1, &mut row)?;
        store_point(points, self.count, group_at(&row, 0));
        Ok((next, Known::Points(self.one_more())))
    }

    // What the end of the text makes of the points: room is how many have a place.
    fn counted(self, c: Cursor, room: usize) -> Result<Self, Refusal>
        ensures { result ≡ traverse_read (counted_by room self c.at c.line) }
    {
        let count = self.count;
        need(count > 0, Refusal::new(Kind::Ended, c.line))?;
        need(count_ok(count), Refusal::new(Kind::Points, count))?;
        need(count <= room, Refusal::new(Kind::Lent, 0))?;
        Ok(self)
    }
}

impl Known {
    // Before the first line.
    pub fn start() -> Self
        ensures { result ≡ start }
    {
        Self::Names
    }

    // Reads the value line.
    fn values_line(c: Cursor, s: &[u8]) -> Result<(Cursor, Known), Refusal>
        ensures { result ≡ line_step (value_line s.now 3 c.at c.line).answer (with_values (value_line s.now 3 c.at c.line).kept) }
    {
        let mut row = [0; Head::NUMBERS];
        let next = c.lines(s, Head::NUMBERS, 0, 1, &mut row)?;
        Ok((next, Known::Columns(group_at(&row, 0))))
    }

    // Reads one line, by what comes next: the cursor past it, and what is known then.
    fn line(self, c: Cursor, s: &[u8], points: &mut [i64]) -> Result<(Cursor, Known), Refusal>
        ensures { leaves result points.new ≡ line_left (held self points.old) (line_at s.now (held self points.old) c.at c.line) }
    {
        match self {
            Known::Names => {
                let next = c.names(s, b"latitude friction initial\n")?;
                Ok((next, Known::Values))
            }
            Known::Values => Known::values_line(c, s),
            Known::Columns(head) => {
                let next = c.names(s, b"distance depth\n")?;
                Ok((next, Known::Points(TraverseRead { head, count: 0 })))
            }
            Known::Points(traverse) => traverse.point_line(c, s, points),
        }
    }

    // What the end of the text makes of what is known.
    fn end(self, c: Cursor, room: usize) -> Result<TraverseRead, Refusal>
        ensures { result ≡ traverse_read (end_at room self c.at c.line) }
    {
        match self {
            Known::Names => Err(Refusal::new(Kind::Names, c.line.saturating_add(1))),
            Known::Values | Known::Columns(_) => Err(Refusal::new(Kind::Ended, c.line)),
            Known::Points(traverse) => traverse.counted(c, room),
        }
    }

    // Reads the lines that a window holds whole, from a cursor on, and stores their points.
    pub fn step(self, from: Cursor, window: Window, points: &mut [i64]) -> Result<Progress, Refusal>
        ensures { leaves result points.new ≡ traverse_step window.entry.bytes.now window.entry.last (held self points.old) from.at from.line }
    {
        let mut k = self;
        let mut c = from;
        loop {
            if !window.holds(c.at, 33) {
                return Ok(Progress::More(c, k));
            }
            if c.at >= window.bytes.len() {
                let traverse = k.end(c, count::<Station>(points))?;
                return Ok(Progress::Read(traverse));
            }
            (c, k) = k.line(c, window.bytes, points)?;
        }
    }
}

// Reads a traverse text that is held whole, and stores its points.
pub fn read_traverse(s: &[u8], points: &mut [i64]) -> Result<TraverseRead, Refusal>
    ensures { leaves result points.new ≡ traverse_left s.now points.old }
{
    let window = Window {
        bytes: s,
        last: true,
    };
    match Known::start().step(Cursor { at: 0, line: 0 }, window, points)? {
        Progress::Read(traverse) => Ok(traverse),
        // The text ends with this window.
        Progress::More(..) => unreachable!(),
    }
}
