// The text of `traverse.txt` and `storm.txt`, read by a cursor: document 01's "Files" and its checks 1 to 4.
// Text is a slice of bytes: the whole text, or a window of it. What is read goes into a slice of numbers that the caller lends. Nothing here
// opens a file or judges a value's limits.
// This file has the cursor, values, value lines and names lines; `storm` and `traverse` the two texts.
#![tactic(auto, unfolding(crate::specs::Text::digit_at, crate::specs::Text::start_at, crate::specs::Text::more, crate::specs::Text::good_of, crate::specs::Text::signed_value, crate::specs::Text::close_of, crate::specs::Lines::repeated, crate::specs::Lines::kept_left, crate::specs::Lines::same_with, crate::specs::Lines::names_at, crate::specs::Lines::holds))]

mod storm;
mod traverse;

ghost use Rattle.std.specs.Prelude.{cond, ◌&&◌, [], ◌≡◌, ◌+◌, ◌-◌, ◌*◌, ◌<◌, ◌≤◌, ◌^◌, eqb, length};
ghost use Rattle.reader.specs.Text.{more, byte, some_digit, good_of, signed_value, start_at, close_of};
ghost use Rattle.reader.specs.Lines.{leaves, repeated, none_kept, kept_left, lines_at, lines_left, spells, names_at, holds};

use records::{Kind, Refusal, need};
pub use storm::{Halt, storm_start, storm_start_step};
pub use traverse::{Known, Progress, TraverseRead, read_traverse};

// The most digits of a value.
const DIGITS: u64 = 9;

// A place in a text, and how many lines stand before it.
#[derive(Clone, Copy, Debug, PartialEq, Eq)]
pub struct Cursor {
    pub at: usize,
    pub line: usize,
}

// A window of a text: its bytes, and whether the text ends with them.
#[derive(Clone, Copy, Debug, PartialEq, Eq)]
pub struct Window<'a> {
    pub bytes: &'a [u8],
    pub last: bool,
}

// Where in the lent numbers the next is kept, and whether all values that lines share were those of the first line.
#[derive(Clone, Copy, Debug, PartialEq, Eq)]
struct Kept {
    next: usize,
    same: bool,
}

impl Cursor {
    // The byte here, and 0 past the end.
    pub fn byte(self, s: &[u8]) -> u8
        ensures { result ≡ byte s.now self.at }
    {
        s.get(self.at).copied().unwrap_or(0)
    }

    // The digit here, if there is one.
    pub fn digit(self, s: &[u8]) -> Option<u64>
        ensures { result ≡ some_digit s.now self.at }
    {
        let b = self.byte(s);
        if !b.is_ascii_digit() {
            return None;
        }
        Some(u64::from(b - b'0'))
    }

    // Past the byte here.
    pub fn past(self) -> Self
        requires { self.at + 1 < 2 ^ 64 }
        ensures { result ≡ record { at = self.at + 1; line = self.line } }
    {
        Cursor {
            at: self.at + 1,
            ..self
        }
    }

    // Past the minus here, if there is one.
    fn past_sign(self, s: &[u8]) -> Self
        ensures { result ≡ record { at = start_at s.now self.at; line = self.line } }
    {
        if self.byte(s) == b'-' {
            self.past()
        } else {
            self
        }
    }

    // Whether the text has these bytes from here on.
    pub fn spells(self, s: &[u8], want: &[u8]) -> bool
        ensures { result ≡ spells s.now self.at want.now }
    {
        let here = self.at.min(s.len());
        s[here..].starts_with(want)
    }

    // In the line that begins here.
    fn next_line(self) -> Self
        ensures { result ≡ record { at = self.at; line = more self.line } }
    {
        Cursor {
            line: self.line.saturating_add(1),
            ..self
        }
    }
}

// Whether so many digits, nine at most, with this byte first, are a value.
fn good(negative: bool, count: u64, first: u8) -> bool
    requires { count ≤ 9 }
    ensures { result ≡ good_of negative count first }
{
    count > 0 && (first != b'0' || (count == 1 && !negative))
}

fn signed(negative: bool, size: u64) -> i64
    requires { size < 2 ^ 63 }
    ensures { result ≡ signed_value negative size }
{
    let x = size as i64;
    if negative { -x } else { x }
}

// The byte that closes a value with n more behind it.
fn close_of(n: usize) -> u8
    ensures { result ≡ close_of n }
{
    if n == 0 { b'\n' } else { b' ' }
}

// Whether value k of line i is one that lines share with the first.
fn repeated(shared: usize, i: usize, k: usize) -> bool
    ensures { result ≡ repeated shared i k }
{
    i > 0 && k < shared
}

impl Kept {
    // Before the first value.
    fn none() -> Self
        ensures { result ≡ none_kept }
    {
        Kept {
            next: 0,
            same: true,
        }
    }

    // Keeps the value v of a line; one that is there again, as value k, is compared with the first line's.
    fn keep(self, out: &mut [i64], again: bool, k: usize, v: i64) -> Self
        requires { cond again k self.next < length out.old }
        ensures { leaves result out.new ≡ kept_left again k v self out.old }
    {
        if again {
            return Kept {
                same: out[k] == v && self.same,
                ..self
            };
        }
        out[self.next] = v;
        Kept {
            next: self.next + 1,
            ..self
        }
    }
}

impl Cursor {
    // Whether a value ends here: so many digits, nine at most, with this byte first, are one, and the byte here closes it with n more behind it.
    fn closes(self, s: &[u8], negative: bool, count: u64, first: u8, n: usize) -> bool
        requires { count ≤ 9 }
        ensures { result ≡ (good_of negative count first && eqb (byte s.now self.at) (close_of n)) }
    {
        good(negative, count, first) && self.byte(s) == close_of(n)
    }

    // Reads n lines of so many values, of which each shares the first `shared` with the first line, and leaves them at the first fault, even
    // from inside a number. The numbers go into `out` from its start, those that lines share once.
    pub fn lines(
        self,
        s: &[u8],
        width: usize,
        shared: usize,
        n: usize,
        out: &mut [i64],
    ) -> Result<Cursor, Refusal>
        requires { (shared ≤ width) × (shared + n * (width - shared) ≤ length out.old) }
        ensures { leaves result out.new ≡ lines_left (lines_at s.now width shared n 0 self.at self.line []) out.old }
    {
        let mut c = self;
        let mut kept = Kept::none();
        'lines: {
            for i in 0..n {
                if c.at >= s.len() {
                    break 'lines Err(Refusal::new(Kind::Ended, c.line));
                }
                c = c.next_line();
                for k in 0..width {
                    let negative = c.byte(s) == b'-';
                    c = c.past_sign(s);
                    let first = c.byte(s);
                    let mut count: u64 = 0;
                    let mut value: u64 = 0;
                    while let Some(d) = c.digit(s) {
                        if count == DIGITS {
                            break 'lines Err(Refusal::new(Kind::Malformed, c.line));
                        }
                        value = value * 10 + d;
                        count += 1;
                        c = c.past();
                    }
                    if !c.closes(s, negative, count, first, width - (k + 1)) {
                        break 'lines Err(Refusal::new(Kind::Malformed, c.line));
                    }
                    c = c.past();
                    kept = kept.keep(out, repeated(shared, i, k), k, signed(negative, value));
                }
                if !kept.same {
                    break 'lines Err(Refusal::new(Kind::Differs, c.line));
                }
            }
            Ok(c)
        }
    }

    // Reads a line of names, which is given with its line feed.
    pub fn names(self, s: &[u8], want: &[u8]) -> Result<Cursor, Refusal>
        ensures { result ≡ names_at s.now want.now self.at self.line }
    {
        let line = self.line.saturating_add(1);
        need(self.spells(s, want), Refusal::new(Kind::Names, line))?;
        Ok(Cursor {
            at: self.at + want.len(),
            line,
        })
    }
}

impl Window<'_> {
    // Whether it has this many bytes more from a place on, or is the text's last.
    fn holds(self, at: usize, need: usize) -> bool
        ensures { result ≡ holds (length self.entry.bytes.now) self.entry.last at need }
    {
        let size = self.bytes.len();
        self.last || (need <= size && at <= size - need)
    }
}
