// What the programs share: a file's text through a window that the caller lends, the whole of `traverse.txt` read by windows, and the output.
// Assumed, and said by no contract, since none can speak of what the system reads: `File::read` delivers the file's bytes in order, and
// where it is asked for one byte or more, a read of 0 bytes is the file's end. Nor can one say what the system writes: `flush` answers how
// many bytes it handed over, and what its callers make of that is proved. A read or a write that fails is told on standard error.
#![tactic(auto)]

ghost use Rattle.std.specs.Prelude.{◌≡◌, None, is_some, not, ℕ, ◌+◌, ◌-◌, ◌<◌, ◌≤◌, ◌^◌, length, take};
ghost use Rattle.files.specs.Filled.{Refills, told, interrupted, Gives, after_read, Refilled, Flushes};
ghost use Rattle.files.specs.TraverseFile.{Loads, LoadsSome};
ghost use Rattle.files.specs.declared.Stop.TheVariants as stop;

use reader::{Cursor, Known, Progress, TraverseRead, Window};
use records::Refusal;
use std::fs::File;
use std::io;
use std::io::{ErrorKind, Read};

// ---- failures

// A read or a write that the system failed; it was told on standard error.
#[derive(Clone, Copy, Debug, PartialEq, Eq)]
pub struct Failed;

// Why a text was not read to its end: it was refused, or a read failed.
#[derive(Clone, Copy, Debug, PartialEq, Eq)]
pub enum Stop {
    Refused(Refusal),
    Failed,
}

impl From<Refusal> for Stop {
    ghost from_gives = { λ r s. s ≡ stop.Refused r };

    fn from(r: Refusal) -> Self {
        Self::Refused(r)
    }
}

impl From<Failed> for Stop {
    ghost from_gives = { λ _ s. s ≡ stop.Failed };

    fn from(_failed: Failed) -> Self {
        Self::Failed
    }
}

// The system's answer. A failure is told on standard error, by the file's name and what the system says. Where that cannot be written, nobody
// is left to tell.
fn told<T>(rt: &HostRuntime, name: &str, answer: io::Result<T>) -> Result<T, Failed>
    ensures { result ≡ told answer }
{
    answer.map_err(|error| {
        let _told = eprintln!(rt; "{name}: {error}");
        Failed
    })
}

// ---- windows

// How a lent buffer stands: so many bytes of it hold text, and whether the text ends with them.
#[derive(Clone, Copy, Debug, PartialEq, Eq)]
pub struct Held {
    pub have: usize,
    pub last: bool,
}

impl Held {
    // Before a byte was read: a file that could not be opened has ended.
    pub fn before(file: &Option<File>) -> Self
        ensures { result ≡ record { have = 0; last = not (is_some file.now) } }
    {
        Held {
            have: 0,
            last: file.is_none(),
        }
    }

    // What the buffer holds of the text.
    pub fn window(self, buf: &[u8]) -> Window<'_>
        requires { self.have ≤ length buf.now }
        ensures bytes { result.bytes.now ≡ take self.have buf.now }
        ensures last { result.last ≡ self.last }
    {
        Window {
            bytes: &buf[..self.have],
            last: self.last,
        }
    }
}

// How many turns a loop over a file may take: a file ends, though nothing here says so.
pub const TURNS: u64 = 0x100_0000_0000_0000;

// How often a read is made again.
const TRIES: u64 = 0x100_0000_0000_0000;

// Whether a signal interrupted the read before a byte came, which is no failure.
fn interrupted(answer: &io::Result<usize>) -> bool
    ensures { result ≡ interrupted answer.now }
{
    match answer {
        Ok(_) => false,
        Err(error) => error.kind() == ErrorKind::Interrupted,
    }
}

// How a window stands after a read, where `rest` bytes were left of it: a read of no bytes is the file's end.
fn after_read(got: Result<usize, Failed>, rest: usize) -> Result<Held, Failed>
    requires { Gives got (2 ^ 64 - 1 - rest) }
    ensures { result ≡ after_read got rest }
{
    let more = got?;
    Ok(Held {
        have: rest + more,
        last: more == 0,
    })
}

// A text to be read: its name in the current folder, and its file, once that was opened. One that could not be opened counts as empty text.
#[derive(Debug, Drop)]
pub struct Source {
    name: &'static str,
    pub file: Option<File>,
}

impl Source {
    // Not opened yet.
    pub fn named(name: &'static str) -> Self
        ensures { result.file ≡ None }
    {
        Source { name, file: None }
    }

    pub fn open(&mut self, rt: &HostRuntime) {
        self.file = File::open(rt, self.name).ok();
    }

    // One read; a file that is not there has no bytes.
    fn read_once(&mut self, buf: &mut [u8]) -> io::Result<usize>
        ensures { Gives result (length buf.old) }
    {
        match &mut self.file {
            Some(file) => file.read(buf),
            None => Ok(0),
        }
    }

    // One read, made again where it was interrupted. An interruption at the last try counts as a failure.
    fn read_through(&mut self, rt: &HostRuntime, buf: &mut [u8]) -> Result<usize, Failed>
        ensures { Gives result (length buf.old) }
    {
        for _ in 0..TRIES {
            let answer = self.read_once(buf);
            if !interrupted(&answer) {
                return told(rt, self.name, answer);
            }
        }
        told(rt, self.name, self.read_once(buf))
    }

    // The window again: what was left of it at its front, and more of the file behind that. What was left is less than the window, so that the
    // read asks for one byte or more, and a read of no bytes is the file's end.
    pub fn refill(
        &mut self,
        rt: &HostRuntime,
        buf: &mut [u8],
        at: usize,
        have: usize,
    ) -> Result<Held, Failed>
        requires { Refills at have (length buf.old) }
        ensures { Refilled result buf.old buf.new at have }
    {
        let rest = have - at;
        buf.copy_within(at..have, 0);
        let got = self.read_through(rt, &mut buf[rest..]);
        after_read(got, rest)
    }
}

// ---- the traverse

// Reads a traverse text to its end, or to its refusal. A file that could not be opened counts as empty text: it has ended before a byte was
// read.
fn load_traverse(
    rt: &HostRuntime,
    source: &mut Source,
    buf: &mut [u8],
    points: &mut [i64],
) -> Result<TraverseRead, Stop>
    requires { 33 ≤ length buf.old }
    ensures { Loads (is_some source.old.file) buf.old points.old result buf.new points.new }
{
    let mut known = Known::start();
    let mut line = 0;
    let mut held = Held::before(&source.file);
    for _ in 0..TURNS {
        match known.step(Cursor { at: 0, line }, held.window(buf), points)? {
            Progress::Read(traverse) => return Ok(traverse),
            Progress::More(c, k) => {
                held = source.refill(rt, buf, c.at, held.have)?;
                line = c.line;
                known = k;
            }
        }
    }
    Err(Stop::Failed)
}

// Reads `traverse.txt` in the current folder, its points into the lent numbers.
pub fn read_traverse(
    rt: &HostRuntime,
    buf: &mut [u8],
    points: &mut [i64],
) -> Result<TraverseRead, Stop>
    requires { 33 ≤ length buf.old }
    ensures { LoadsSome buf.old points.old result buf.new points.new }
{
    let mut source = Source::named("traverse.txt");
    source.open(rt);
    load_traverse(rt, &mut source, buf, points)
}

// ---- the output

// Writes these bytes to standard output, and answers how many went: all of them.
pub fn flush(rt: &HostRuntime, out: &[u8]) -> Result<usize, Failed>
    ensures { Flushes result (length out.now) }
{
    told(rt, "standard output", rt.write_all(out))?;
    Ok(out.len())
}
