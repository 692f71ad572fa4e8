// Whole decimal numbers and words put into a buffer that the caller lends. A `write_` function writes where its caller has seen to the room, and
// answers the place behind what it wrote; the counts and `has_room` tell the room beforehand.
ghost use Rattle.std.specs.Prelude.{◌≡◌, [], ◌∷◌, ◌++◌, ◌+◌, ◌<◌, ◌≤◌, length, leb};
ghost use Rattle.listing.specs.Decimal.{decimal_of, signed_text};
ghost use Rattle.listing.specs.Lines.{values_line};
ghost use Rattle.listing.specs.Put.{Wrote};

use itoa::Buffer;

// Whether a buffer of this size has room for so many bytes from `at` on, wherever `at` is.
pub fn has_room(size: usize, at: usize, count: usize) -> bool
    ensures { result ≡ leb (at + count) size }
{
    at <= size && count <= size - at
}

// How many digits n has: one more than its logarithm, and 0 has one. The bound is there for callers that add counts.
pub fn digit_count(n: u64) -> usize
    ensures { (result ≡ length (decimal_of n)) × (result ≤ 20) }
{
    n.checked_ilog10().unwrap_or(0) as usize + 1
}

// How many bytes x takes with its sign.
pub fn signed_count(x: i64) -> usize
    ensures { (result ≡ length (signed_text x)) × (result ≤ 21) }
{
    usize::from(x < 0) + digit_count(x.unsigned_abs())
}

// A word of a line.
pub fn write_bytes(out: &mut [u8], at: usize, bytes: &[u8]) -> usize
    requires { at + length bytes.now ≤ length out.old }
    ensures { Wrote bytes.now at out.old result out.new }
{
    let end = at + bytes.len();
    out[at..end].copy_from_slice(bytes);
    end
}

// A word and the byte that closes it.
fn write_closed(out: &mut [u8], at: usize, bytes: &[u8], close: u8) -> usize
    requires { at + length bytes.now < length out.old }
    ensures { Wrote (bytes.now ++ (close ∷ [])) at out.old result out.new }
{
    let end = write_bytes(out, at, bytes);
    out[end] = close;
    end + 1
}

// n and the byte that closes it.
pub fn write_decimal(out: &mut [u8], at: usize, n: u64, close: u8) -> usize
    requires { at + length (decimal_of n) < length out.old }
    ensures { Wrote (decimal_of n ++ (close ∷ [])) at out.old result out.new }
{
    let mut digits = Buffer::new();
    write_closed(out, at, digits.format(n).as_bytes(), close)
}

// x and the byte that closes it.
pub fn write_signed(out: &mut [u8], at: usize, x: i64, close: u8) -> usize
    requires { at + length (signed_text x) < length out.old }
    ensures { Wrote (signed_text x ++ (close ∷ [])) at out.old result out.new }
{
    let mut digits = Buffer::new();
    write_closed(out, at, digits.format(x).as_bytes(), close)
}

// How many bytes a line of three values takes, each with the byte that closes it. The bound is there for callers, as above.
pub fn values_count(a: i64, b: i64, c: i64) -> usize
    ensures { (result ≡ length (values_line a b c)) × (result ≤ 63) }
{
    signed_count(a) + signed_count(b) + signed_count(c) + 3
}

// A line of three values.
pub fn write_values(out: &mut [u8], at: usize, a: i64, b: i64, c: i64) -> usize
    requires { at + length (values_line a b c) ≤ length out.old }
    ensures { Wrote (values_line a b c) at out.old result out.new }
{
    let second = write_signed(out, at, a, b' ');
    let third = write_signed(out, second, b, b' ');
    write_signed(out, third, c, b'\n')
}
