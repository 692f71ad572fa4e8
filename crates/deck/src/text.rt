// The traverse file that is written: two names lines, the given values, and a line a point. The room is measured before a byte is written.
ghost use Rattle.std.specs.Prelude.{◌≡◌, ◌++◌, ◌+◌, ◌≤◌, length, leb};
ghost use Rattle.listing.specs.Put.{Wrote};
ghost use Rattle.deck.specs.Deck.{head_lines, point_line, left_deck, put_text};
ghost use Rattle.deck.specs.Walk.{first_at, walked, lines_from};

use crate::CardCursor;
use crate::walk::{Point, Points};
use listing::decimals::{digit_count, values_count, write_bytes, write_decimal, write_values};
use records::{Head, Kind, Refusal, need};

impl Point {
    // How many bytes its line takes: both numbers, the space and the line feed.
    fn count(self) -> usize
        ensures { result ≡ length (point_line self.distance self.depth) }
    {
        digit_count(self.distance) + digit_count(self.depth) + 2
    }

    fn write(self, out: &mut [u8], at: usize) -> usize
        requires { at + length (point_line self.distance self.depth) ≤ length out.old }
        ensures { Wrote (point_line self.distance self.depth) at out.old result out.new }
    {
        let middle = write_decimal(out, at, self.distance, b' ');
        write_decimal(out, middle, self.depth, b'\n')
    }
}

// How many bytes the lines before the points take: two names lines of 26 and 15 bytes, and the values.
fn head_count(h: Head) -> usize
    ensures { result ≡ length (head_lines h) }
{
    26 + values_count(h.latitude, h.friction, h.initial) + 15
}

fn write_head(out: &mut [u8], h: Head) -> usize
    requires { length (head_lines h) ≤ length out.old }
    ensures { Wrote (head_lines h) 0 out.old result out.new }
{
    let values = write_bytes(out, 0, b"latitude friction initial\n");
    let names = write_values(out, values, h.latitude, h.friction, h.initial);
    write_bytes(out, names, b"distance depth\n")
}

// Whether the lines of n points have room in so many bytes.
fn points_fit(s: &[u8], n: usize, first: Points, room: usize) -> bool
    ensures { result ≡ leb (length (lines_from s.now n first.distance.at first.depth.at)) room }
{
    let mut points = first;
    let mut spare = room;
    for _ in 0..n {
        let (point, next) = points.step(s);
        let size = point.count();
        if spare < size {
            return false;
        }
        spare -= size;
        points = next;
    }
    true
}

// Whether the whole text of n points has.
fn text_fits(h: Head, s: &[u8], n: usize, first: Points, room: usize) -> bool
    ensures { result ≡ leb (length (head_lines h ++ lines_from s.now n first.distance.at first.depth.at)) room }
{
    let before = head_count(h);
    before <= room && points_fit(s, n, first, room - before)
}

// The lines of n points.
fn write_points(out: &mut [u8], at: usize, s: &[u8], n: usize, first: Points) -> usize
    requires { at + length (lines_from s.now n first.distance.at first.depth.at) ≤ length out.old }
    ensures { Wrote (lines_from s.now n first.distance.at first.depth.at) at out.old result out.new }
{
    let mut points = first;
    let mut place = at;
    for _ in 0..n {
        let (point, next) = points.step(s);
        place = point.write(out, place);
        points = next;
    }
    place
}

// The whole text of n points, where there is room for it. The depths begin behind the last distance.
pub fn put_text(h: Head, s: &[u8], n: usize, out: &mut [u8]) -> Result<usize, Refusal>
    ensures { left_deck result out.new ≡ put_text (head_lines h ++ lines_from s.now n (first_at s.now 0) (walked s.now n (first_at s.now 0))) out.old }
{
    let distance = CardCursor { at: 0 }.first(s);
    let depth = distance.forward(s, n);
    let first = Points { distance, depth };
    need(
        text_fits(h, s, n, first, out.len()),
        Refusal::new(Kind::Lent, 0),
    )?;
    let at = write_head(out, h);
    Ok(write_points(out, at, s, n, first))
}
