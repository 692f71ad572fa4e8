// The program: it reads `traverse.txt` and then `storm.txt` in the current folder, each through a window of 65,536 bytes, and prints the
// listing. What is printed is decided by `hydrograph` and the crates below it; here bytes are moved. `main` owns the window, the output and the
// numbers of points, record and rows, and lends them down; what a storm is lent of them is the struct `Storm`. A file that cannot be opened counts
// as empty text. A read or a write that fails is told on standard error; after a read that failed what waits is printed with the line `failed`
// behind it, after a write nothing more.
#![tactic(auto)]

ghost use Rattle.std.specs.Prelude.{◌≡◌, true, ◌+◌, ◌≤◌, length, is_some};
ghost use Rattle.records.specs.Shapes.{traverse_of};
ghost use Rattle.hydrograph.specs.Turns.{line_room};
ghost use Rattle.files.specs.Filled.{Refills, Flushes};
ghost use Rattle.surge.specs.Standing.{Lent, Stands, Room, front_of, standing_with, left_by, goes_on, AfterRefill, went_out, ReadFrom};
ghost use Rattle.surge.specs.Printed.{Prints, Runs};

use files::{Failed, Held, Source, Stop, TURNS};
use hydrograph::{Run, Turn};
use listing::Line;
use reader::{Cursor, Window};
use records::groups::Group;
use records::limits::{POINTS_MOST, SEGMENTS_MOST};
use records::{Closing, Point, Row, Station, Traverse};
use std::ops::ControlFlow;

// How the program stands between two turns: the run, whose cursor is in the window; the window; and how many bytes wait to be printed.
#[derive(Clone, Copy, Debug, PartialEq, Eq)]
struct Standing {
    run: Run,
    window: Held,
    used: usize,
}

// ---- one turn: how the program goes on after it; or, where no more comes, how many bytes wait

// The run with its cursor at the front of the window.
fn at_front(run: Run) -> Run
    ensures { result ≡ front_of run }
{
    Run {
        cursor: Cursor {
            at: 0,
            ..run.cursor
        },
        ..run
    }
}

// After a refill the cursor is at the window's front; where the read failed, the line that says so waits behind the others and no more comes.
fn after_refill(
    x: Standing,
    run: Run,
    answer: Result<Held, Failed>,
    out: &mut [u8],
) -> ControlFlow<usize, Standing>
    requires { x.used + line_room ≤ length out.old }
    ensures { AfterRefill answer run x result out.old out.new }
{
    match answer {
        Ok(window) => ControlFlow::Continue(Standing {
            run: at_front(run),
            window,
            ..x
        }),
        Err(Failed) => ControlFlow::Break(hydrograph::put_line(Line::Failed, out, x.used)),
    }
}

// Nothing waits after a write of what waited; where it failed, no more comes.
fn after_write(x: Standing, run: Run, answer: Result<usize, Failed>) -> ControlFlow<usize, Standing>
    requires { Flushes answer x.used }
    ensures leaves { left_by result x run ≡ standing_with x run 0 }
    ensures goes { goes_on result ≡ went_out answer }
{
    match answer {
        Ok(n) => ControlFlow::Continue(Standing {
            run,
            used: x.used - n,
            ..x
        }),
        Err(Failed) => ControlFlow::Break(0),
    }
}

// ---- the storm

// What the program is lent for a storm, with the traverse that it runs over: the text, the window's buffer, the numbers of a record, the rows, and
// the output, which has room for a line; the window has room for the longest record, and the numbers have for one of that traverse.
#[derive(Drop)]
struct Storm<'a> {
    traverse: Traverse<'a>,
    source: &'a mut Source,
    buf: &'a mut [u8],
    numbers: &'a mut [i64],
    rows: &'a mut [i64],
    out: &'a mut [u8],
    ghost room: { Room buf.now (traverse_of traverse) numbers.now out.now },
}

impl Storm<'_> {
    ghost use Rattle.surge.specs.Storm.{Keeps, TurnOf, MarchOf, PrintOf};

    // More of the storm, where the window does not hold what comes next.
    fn refilled(&mut self, rt: &HostRuntime, x: Standing, run: Run) -> ControlFlow<usize, Standing>
        requires { Refills run.cursor.at x.window.have (length self.old.buf.now) × (x.used + line_room ≤ length self.old.out.now) }
        ensures keeps { Keeps self.old self.new }
        ensures record_same { self.new.numbers.now ≡ self.old.numbers.now }
        ensures rows_same { self.new.rows.now ≡ self.old.rows.now }
        ensures read { ReadFrom run x result self.old.buf.now self.new.buf.now self.old.out.now self.new.out.now }
    {
        let answer = self
            .source
            .refill(rt, self.buf, run.cursor.at, x.window.have);
        after_refill(x, run, answer, self.out)
    }

    // One turn, and what it asks for.
    fn turn(&mut self, rt: &HostRuntime, x: Standing) -> ControlFlow<usize, Standing>
        requires { Stands x (length self.old.buf.now) (length self.old.out.now) }
        ensures keeps { Keeps self.old self.new }
        ensures turned { TurnOf x self.old result self.new }
    {
        // Lent as `&mut`, though it is only read: of a field lent as `&` the check keeps the length alone.
        let bytes = &mut self.buf[..x.window.have];
        let text = Window {
            bytes,
            last: x.window.last,
        };
        let mut run = x.run;
        match hydrograph::storm_turn(
            self.traverse,
            &mut run,
            text,
            self.numbers,
            self.rows,
            self.out,
            x.used,
        ) {
            Turn::More => self.refilled(rt, x, run),
            Turn::Line(used) => ControlFlow::Continue(Standing { run, used, ..x }),
            Turn::End(used) => ControlFlow::Break(used),
            // What waits is written, and the turn is made again with the whole buffer.
            Turn::Full => after_write(x, run, files::flush(rt, &mut self.out[..x.used])),
        }
    }

    // Turn after turn, from a fresh run to the listing's last line, and how many bytes wait. No march of fewer than 2⁵³
    // bytes uses up the turns.
    fn march(&mut self, rt: &HostRuntime, run: Run, used: usize) -> usize
        requires place { run.cursor.at ≤ 0 }
        requires waits { used ≤ length self.old.out.now }
        ensures keeps { Keeps self.old self.new }
        ensures within { result ≤ length self.new.out.now }
        ensures marched { MarchOf run used self.old result self.new }
    {
        let window = Held::before(&self.source.file);
        let mut x = Standing { run, window, used };
        for _ in 0..TURNS {
            match self.turn(rt, x) {
                ControlFlow::Continue(next) => x = next,
                ControlFlow::Break(waits) => return waits,
            }
        }
        x.used
    }

    // The storm on a traverse that was opened, after the names line, `used` bytes, was to be written; nothing where that failed.
    fn print(
        &mut self,
        rt: &HostRuntime,
        run: Run,
        used: usize,
        named: Result<usize, Failed>,
    ) -> usize
        requires written { Flushes named used }
        requires place { run.cursor.at ≤ 0 }
        requires waits { used ≤ length self.old.out.now }
        ensures keeps { Keeps self.old self.new }
        ensures within { result ≤ length self.new.out.now }
        ensures printed { PrintOf run named self.old result self.new }
    {
        match named {
            Ok(n) => {
                self.source.open(rt);
                self.march(rt, run, used - n)
            }
            Err(Failed) => 0,
        }
    }
}

// ---- the run

// A traverse that was read: the listing's names line, written before `storm.txt` is opened, and the storm; or the refusal.
fn print_run(
    rt: &HostRuntime,
    buf: &mut [u8],
    traverse: Traverse,
    numbers: &mut [i64],
    rows: &mut [i64],
    out: &mut [u8],
) -> usize
    requires { Room buf.old (traverse_of traverse) numbers.old out.old }
    ensures { (result ≤ length out.new) × Prints (traverse_of traverse.entry) buf.old numbers.old rows.old out.old result buf.new numbers.new rows.new out.new }
{
    let (turn, run) = hydrograph::begin(traverse, out, 0);
    match turn {
        Turn::Line(used) => {
            let named = files::flush(rt, &out[..used]);
            let mut source = Source::named("storm.txt");
            let mut storm = Storm {
                traverse,
                source: &mut source,
                buf,
                numbers,
                rows,
                out,
            };
            storm.print(rt, run, used, named)
        }
        Turn::End(used) => used,
        // Opening needs no text, and there is room for a line.
        Turn::More | Turn::Full => unreachable!(),
    }
}

// The traverse goes into the lent points, each record into the lent numbers; the rows are all zero, those of a fresh traverse. Answers what
// became of the last bytes that waited.
fn run(
    rt: &HostRuntime,
    buf: &mut [u8],
    points: &mut [i64],
    numbers: &mut [i64],
    rows: &mut [i64],
    out: &mut [u8],
) -> Result<usize, Failed>
    requires { Lent (length buf.old) points.old numbers.old rows.old (length out.old) }
    ensures { Runs buf.old points.old numbers.old rows.old out.old result buf.new points.new numbers.new rows.new out.new }
{
    let waits = match files::read_traverse(rt, buf, points) {
        Ok(read) => {
            let traverse = Traverse {
                head: read.head,
                points: &points[..Station::NUMBERS * read.count],
            };
            let rows_end = Row::NUMBERS * (read.count - 1);
            print_run(rt, buf, traverse, numbers, &mut rows[..rows_end], out)
        }
        Err(Stop::Refused(refusal)) => {
            hydrograph::put_line(hydrograph::line_of(refusal), out, 0)
        }
        Err(Stop::Failed) => hydrograph::put_line(Line::Failed, out, 0),
    };
    files::flush(rt, &out[..waits])
}

// Room for 65 points, for a record of as many, and for the rows of 64 segments.
const POINTS: usize = Station::NUMBERS * POINTS_MOST;

const RECORD: usize = Closing::NUMBERS + Point::NUMBERS * POINTS_MOST;

const ROWS: usize = Row::NUMBERS * SEGMENTS_MOST;

fn main(rt: HostRuntime) {
    let mut buf = io::large_buffer();
    let mut out = io::large_buffer();
    let mut points = [0; POINTS];
    let mut numbers = [0; RECORD];
    let mut rows = [0; ROWS];
    // What the system failed was told on standard error.
    let _ = run(
        &rt,
        &mut buf,
        &mut points,
        &mut numbers,
        &mut rows,
        &mut out,
    );
}
