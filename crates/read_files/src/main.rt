// Reads `traverse.txt` and then `storm.txt` in the current folder through a window of 65,536 bytes, and prints what was read or the refusal.
// A file that cannot be opened counts as empty text. A read that fails is told on standard error, and nothing more is printed.
// What the system's read delivers is taken for the file's bytes; what is printed is tested and not proved.
#![tactic(auto)]

ghost use Rattle.std.specs.Prelude.{◌≡◌, ℕ, ◌+◌, ◌-◌, ◌*◌, ◌<◌, ◌≤◌, length, IfOk, IsErrOf};
ghost use Rattle.reader.specs.Storm.{record_size, longest_record};

use files::{Failed, Held, Source, Stop, TURNS};
use reader::{Cursor, Halt, TraverseRead, Window};
use records::groups::{Group, group_at};
use records::limits::POINTS_MOST;
use records::{Closing, Point, Refusal, Station};
use std::fmt;
use std::fmt::Write;

// ---- printing

// A line of what is printed.
#[derive(Clone, Copy, Debug, PartialEq, Eq)]
enum Line {
    Traverse(TraverseRead),
    Station(Station),
    Record(Closing),
    Point(Point),
    Refused(Refusal),
}

impl fmt::Display for Line {
    fn fmt<W: Write>(&self, f: &mut fmt::Formatter<W>) -> fmt::Result {
        match self {
            Line::Traverse(x) => {
                let head = x.head;
                write!(
                    f,
                    "traverse {} {} {} {}",
                    head.latitude, head.friction, head.initial, x.count
                )
            }
            Line::Station(x) => write!(f, "point {} {}", x.distance, x.depth),
            Line::Record(x) => write!(f, "record {} {}", x.seconds, x.tide),
            Line::Point(x) => write!(f, "point {} {} {}", x.wind, x.angle, x.deficit),
            Line::Refused(x) => write!(f, "refused {} {}", x.number(), x.place),
        }
    }
}

// Standard output, by blocks of the lent buffer, of which `used` bytes wait.
#[derive(Drop)]
struct Out<'a> {
    bytes: &'a mut [u8],
    used: usize,
    ghost some: { 0 < length bytes.now },
    ghost waits: { used ≤ length bytes.now },
}

impl Write for Out<'_> {
    // A full block is written before the next byte; one that cannot be is lost untold: the last write alone tells its failure.
    fn write_str(&mut self, s: &str) -> fmt::Result {
        for b in s.as_bytes() {
            if self.used == self.bytes.len() {
                io::write_all(1, self.bytes);
                self.used = 0;
            }
            self.bytes[self.used] = *b;
            self.used += 1;
        }
        Ok(())
    }
}

impl Out<'_> {
    // Prints a line; no byte is refused.
    fn print(&mut self, line: Line) {
        let _taken = writeln!(self, "{line}");
    }

    // Writes what waits.
    fn flush(&mut self, rt: &HostRuntime) {
        let _told = files::flush(rt, &self.bytes[..self.used]);
    }
}

// Prints a traverse, whose points were read into the lent numbers.
fn print_traverse(out: &mut Out<'_>, traverse: TraverseRead, points: &[i64])
    requires { 2 * traverse.count ≤ length points.now }
{
    out.print(Line::Traverse(traverse));
    for i in 0..traverse.count {
        out.print(Line::Station(group_at(points, i)));
    }
}

// ---- the storm

// Goes past the names line, where no line was read yet.
fn past_names(cursor: Cursor, text: Window) -> Result<Cursor, Halt>
    requires { cursor.at ≤ length text.bytes.now }
    ensures inside { IfOk result (λ c. c.at ≤ length text.entry.bytes.now) }
    ensures short { IsErrOf result Halt.More → length text.entry.bytes.now < 32 }
{
    if cursor.line == 0 {
        return reader::storm_start_step(text);
    }
    Ok(cursor)
}

// A storm's file, read through the lent window: how the window stands, and where reading stands in it. A record of n points goes into the lent
// numbers.
#[derive(Drop)]
struct Storm<'a> {
    source: Source,
    buf: &'a mut [u8],
    held: Held,
    cursor: Cursor,
    n: usize,
    numbers: &'a mut [i64],
    ghost wide: { longest_record ≤ length buf.now },
    ghost within: { held.have ≤ length buf.now },
    ghost place: { cursor.at ≤ held.have },
    ghost room: { record_size n ≤ length numbers.now },
}

impl<'a> Storm<'a> {
    // Before the first byte.
    fn open(rt: &HostRuntime, buf: &'a mut [u8], n: usize, numbers: &'a mut [i64]) -> Storm<'a>
        requires window { longest_record ≤ length buf.old }
        requires room { record_size n ≤ length numbers.old }
    {
        let mut source = Source::named("storm.txt");
        source.open(rt);
        let held = Held::before(&source.file);
        Storm {
            source,
            buf,
            held,
            cursor: Cursor { at: 0, line: 0 },
            n,
            numbers,
        }
    }

    // Reads the next record, past the names line where that is next; false where the text ends here.
    fn next(&mut self) -> Result<bool, Halt>
        ensures { IsErrOf result Halt.More → self.new.held.have - self.new.cursor.at < length self.new.buf.now }
    {
        let text = self.held.window(self.buf);
        self.cursor = past_names(self.cursor, text)?;
        match self.cursor.record_step(text, self.n, self.numbers)? {
            Some(past) => {
                self.cursor = past;
                Ok(true)
            }
            None => Ok(false),
        }
    }

    // More of the file, where the window does not hold what comes next.
    fn refill(&mut self, rt: &HostRuntime) -> Result<(), Failed>
        requires { self.old.held.have - self.old.cursor.at < length self.old.buf.now }
    {
        let at = self.cursor.at;
        self.held = self.source.refill(rt, self.buf, at, self.held.have)?;
        self.cursor.at = 0;
        Ok(())
    }

    // Prints the record that was read.
    fn print(&self, out: &mut Out<'_>) {
        out.print(Line::Record(group_at(self.numbers, 0)));
        let points = &self.numbers[Closing::NUMBERS..];
        for i in 0..self.n {
            out.print(Line::Point(group_at(points, i)));
        }
    }
}

// Prints record after record, to the end or to the refusal.
fn print_storm(rt: &HostRuntime, storm: &mut Storm<'_>, out: &mut Out<'_>) -> Result<(), Stop> {
    for _ in 0..TURNS {
        match storm.next() {
            Ok(true) => storm.print(out),
            Ok(false) => return Ok(()),
            Err(Halt::More) => storm.refill(rt)?,
            Err(Halt::Refused(refusal)) => return Err(Stop::Refused(refusal)),
        }
    }
    Err(Stop::Failed)
}

// ---- the program

// Prints the traverse, and then the storm.
fn run(
    rt: &HostRuntime,
    buf: &mut [u8],
    points: &mut [i64],
    numbers: &mut [i64],
    out: &mut Out<'_>,
) -> Result<(), Stop>
    requires window { longest_record ≤ length buf.old }
    requires record_room { 197 ≤ length numbers.old }
{
    let traverse = files::read_traverse(rt, buf, points)?;
    print_traverse(out, traverse, points);
    let mut storm = Storm::open(rt, buf, traverse.count, numbers);
    print_storm(rt, &mut storm, out)
}

// Room for 65 points, and for a record of as many.
const POINTS: usize = Station::NUMBERS * POINTS_MOST;

const RECORD: usize = Closing::NUMBERS + Point::NUMBERS * POINTS_MOST;

// Where a read fails, what waits is not printed.
fn main(rt: HostRuntime) {
    let mut buf = io::large_buffer();
    let mut block = io::large_buffer();
    let mut points = [0; POINTS];
    let mut numbers = [0; RECORD];
    let mut out = Out {
        bytes: &mut block,
        used: 0,
    };
    match run(&rt, &mut buf, &mut points, &mut numbers, &mut out) {
        Ok(()) => {}
        Err(Stop::Refused(refusal)) => out.print(Line::Refused(refusal)),
        Err(Stop::Failed) => return,
    }
    out.flush(&rt);
}
