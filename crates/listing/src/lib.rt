// The lines that the program prints, put into a buffer that the caller lends.
//
// The open call is `Line::put`: it finds out how long the line is before it writes a byte, so a line that does not fit leaves the buffer as
// lent. A `write_` function writes where its caller has seen to the room, and answers the place behind what it wrote.
#![tactic(auto)]

pub mod decimals;

ghost use Rattle.std.specs.Prelude.{◌≡◌, ◌+◌, ◌≤◌, length};
ghost use Rattle.listing.specs.Lines.{line_text, refused_line};
ghost use Rattle.listing.specs.Put.{after_put, put_of, Wrote};

use crate::decimals::{
    digit_count, has_room, values_count, write_bytes, write_decimal, write_values,
};

// A line of the listing. Names: printed once `traverse.txt` is accepted. Record: an accepted record's elapsed seconds, then the ends of the
// shore height. Refused: the last line where the input is refused, its number and its place. Failed: the last line where the system failed a
// read; it has no number, so that nothing takes it for a record or a refusal.
#[derive(Clone, Copy, Debug, PartialEq, Eq)]
pub enum Line {
    Names,
    Record { elapsed: i64, low: i64, high: i64 },
    Refused { number: u64, place: u64 },
    Failed,
}

impl Line {
    // How many bytes it takes. A refusal: the word and its space, then two numbers. The longest is a record's.
    fn count(self) -> usize
        ensures value { result ≡ length (line_text self) }
        ensures short { result ≤ 63 }
    {
        match self {
            Line::Names => 17,
            Line::Record { elapsed, low, high } => values_count(elapsed, low, high),
            Line::Refused { number, place } => 8 + digit_count(number) + digit_count(place) + 2,
            Line::Failed => 7,
        }
    }

    fn write(self, out: &mut [u8], at: usize) -> usize
        requires { at + length (line_text self) ≤ length out.old }
        ensures { Wrote (line_text self) at out.old result out.new }
    {
        match self {
            Line::Names => write_bytes(out, at, b"seconds low high\n"),
            Line::Record { elapsed, low, high } => write_values(out, at, elapsed, low, high),
            Line::Refused { number, place } => write_refused(out, at, number, place),
            Line::Failed => write_bytes(out, at, b"failed\n"),
        }
    }

    // The line at this place, whole, and the place behind it; or None, where it does not fit. With room for 63 bytes it always fits.
    pub fn put(self, out: &mut [u8], at: usize) -> Option<usize>
        ensures whole { after_put result out.new ≡ put_of (line_text self) at out.old }
        ensures short { length (line_text self) ≤ 63 }
    {
        if has_room(out.len(), at, self.count()) {
            Some(self.write(out, at))
        } else {
            None
        }
    }
}

fn write_refused(out: &mut [u8], at: usize, number: u64, place: u64) -> usize
    requires { at + length (refused_line number place) ≤ length out.old }
    ensures { Wrote (refused_line number place) at out.old result out.new }
{
    let second = write_bytes(out, at, b"refused ");
    let third = write_decimal(out, second, number, b' ');
    write_decimal(out, third, place, b'\n')
}
