// Reads a task text, line by line, into the tables of the working space, or refuses it with the line that is at fault (refusals 2 to 6).
#![tactic(auto)]

ghost use Rattle.std.specs.Prelude.{◌≡◌, ◌+◌, ◌-◌, ◌<◌, ◌≤◌, min, length};
ghost use Rattle.model.specs.declared.Line.TheVariants.{At};
ghost use Rattle.model.specs.Limits.{most_funcs, most_points, most_in_all, most_bytes};
ghost use Rattle.model.specs.Rows.{refuse};
ghost use Rattle.model.specs.Task.{read_text};
ghost use Rattle.tables.specs.Layout.{tables_length};
ghost use Rattle.tables.specs.Tables.{put_func};
ghost use Rattle.tables.specs.Valid.{Holds};
ghost use Rattle.reader.specs.Reading.{Begins, after_stack, between_of, inside_of, opened, after_func, PointAs, FuncReadAs, ReadAs};

use line::Inside;
use model::{Limits, Point, Refusal, Row, Verdict};
use tables::{Header, put_func, put_point};

// Where a line begins: its number, counted from 1, and its first byte.
#[derive(Clone, Copy)]
struct Position {
    line: u32,
    byte: usize,
}

// A row is met at this place. In `model`, which has the type, nothing runs.
fn refusal(row: Row, place: u32) -> Refusal
    ensures { result ≡ refuse row place }
{
    Refusal { row, place }
}

// A function that is being read, after those of the header: its frame, and how many points it has so far.
#[derive(Clone, Copy)]
struct Part {
    before: Header,
    frame: u32,
    size: usize,
}

impl Part {
    // How many points it may have after those of the other functions.
    fn most(self) -> usize
        requires { self.before.points ≤ most_in_all }
        ensures { result ≡ min most_points (most_in_all - self.before.points) }
    {
        let left = Limits::IN_ALL - self.before.points;
        Limits::POINTS.min(left)
    }

    // Its next point, on line n.
    fn take(&mut self, work: &mut [u32], n: u32, x: Point) -> Verdict
        requires { Holds work.old self.old.before }
        ensures { PointAs result work.old work.new self.old self.new n (At x) }
    {
        if !points::offset_fits(self.frame, x) {
            return Err(refusal(Row::Offset, n));
        }
        if self.most() <= self.size {
            return Err(refusal(Row::TooMany, n));
        }
        put_point(work, self.before.points + self.size, x);
        self.size += 1;
        Ok(())
    }

    // The whole function enters the table of functions.
    fn close(self, work: &mut [u32]) -> Header
        requires { (tables_length ≤ length work.old) × (self.before.funcs < most_funcs) × (self.before.points + self.size ≤ most_in_all) }
        ensures { (result ≡ after_func self) × (work.new ≡ put_func work.old self.before.funcs self.frame self.before.points self.size) }
    {
        let h = self.before;
        put_func(work, h.funcs, self.frame, h.points as u32, self.size as u32);
        Header {
            funcs: h.funcs + 1,
            points: h.points + self.size,
            ..h
        }
    }
}

// The function after those of h, with frame k, from its first point to its closing line.
fn read_points(
    text: &[u8],
    work: &mut [u32],
    h: Header,
    k: u32,
    at: Position,
) -> Result<(Position, Header), Refusal>
    requires { Begins text.now at × Holds work.old h × (h.funcs < most_funcs) }
    ensures { FuncReadAs result text.now at (inside_of work.old (opened h k)) work.old work.new }
{
    let mut part = Part {
        before: h,
        frame: k,
        size: 0,
    };
    let b = text.len();
    let mut a = at.byte;
    loop {
        let n = at.line + part.size as u32;
        match line::read_inside(&text[a..b]) {
            Some(Inside::Point(x, c)) => {
                part.take(work, n, x)?;
                a += c;
            }
            Some(Inside::Close) => {
                if part.size == 0 {
                    return Err(refusal(Row::Form, n));
                }
                let line = n + 1;
                let byte = a + 2;
                return Ok((Position { line, byte }, part.close(work)));
            }
            None => {
                return Err(refusal(Row::Form, n));
            }
        }
    }
}

// The function after those of h.
fn read_func(
    text: &[u8],
    work: &mut [u32],
    h: Header,
    at: Position,
) -> Result<(Position, Header), Refusal>
    requires { Begins text.now at × Holds work.old h × (at.byte < length text.now) }
    ensures { FuncReadAs result text.now at (between_of work.old h) work.old work.new }
{
    let n = at.line;
    let a = at.byte;
    let b = text.len();
    let Some((k, c)) = line::read_func(&text[a..b]) else {
        return Err(refusal(Row::Form, n));
    };
    if h.stack < k {
        return Err(refusal(Row::FrameSize, n));
    }
    if Limits::FUNCS <= h.funcs {
        return Err(refusal(Row::TooMany, n));
    }
    let first = Position {
        line: n + 1,
        byte: a + c,
    };
    read_points(text, work, h, k, first)
}

// The functions of a text, which begin on line 2 at byte a.
fn read_funcs(text: &[u8], work: &mut [u32], stack: u32, a: usize) -> Result<Header, Refusal>
    requires { (tables_length ≤ length work.old) × (length text.now ≤ most_bytes) × (1 ≤ a) × (a ≤ length text.now) }
    ensures { ReadAs result (after_stack text.now stack a) work.old work.new }
{
    let mut at = Position { line: 2, byte: a };
    let mut h = Header {
        stack,
        funcs: 0,
        points: 0,
    };
    while at.byte < text.len() {
        (at, h) = read_func(text, work, h, at)?;
    }
    if h.funcs == 0 {
        return Err(refusal(Row::Form, at.line));
    }
    Ok(h)
}

// A whole text: nothing, or its stack line, then its functions. The tables hold the task.
pub fn read_text(text: &[u8], work: &mut [u32]) -> Result<Header, Refusal>
    requires { (tables_length ≤ length work.old) × (length text.now ≤ most_bytes) }
    ensures { ReadAs result (read_text text.now) work.old work.new }
{
    let b = text.len();
    if b == 0 {
        return Ok(Header {
            stack: 0,
            funcs: 0,
            points: 0,
        });
    }
    let Some((s, c)) = line::read_stack(&text[0..b]) else {
        return Err(refusal(Row::Form, 1));
    };
    if s < 1 || Limits::STACK < s {
        return Err(refusal(Row::StackSize, 1));
    }
    read_funcs(text, work, s, c)
}
