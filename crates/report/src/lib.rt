// The report of a task by the sheet in the columns: how long it is, and its bytes in a lent buffer. One set of functions puts its lines into a sink, which
// counts or writes them. They return the sum of the costs that the lines show, because the foot line shows it.
#![tactic(auto)]

ghost use Rattle.std.specs.Prelude.{◌≡◌, ◌+◌, ◌<◌, ◌≤◌, length, true};
ghost use Rattle.model.specs.Limits.{most_funcs, most_points, most_in_all};
ghost use Rattle.model.specs.Text.{bytes};
ghost use Rattle.model.specs.Sheet.{line_text, once_of};
ghost use Rattle.model.specs.Services.{over};
ghost use Rattle.tables.specs.Tables.{size_at};
ghost use Rattle.readout.specs.Readable.{figured_of};
ghost use Rattle.report.specs.Report.{shows_once, point_numbers, shown, Sums, point_part, points_part, head_part, func_part, funcs_part, report_in};
ghost use Rattle.report.specs.Report.{most_length, most_report, Room, Adds};

use prices::Price;
use print::{Counter, Sink, Writer};
use readout::{PointFigures, Sheet};
use tables::Header;

// The most bytes of the first and the last line together, of a function's first line, of a point's line, and of the foot line.
#[derive(Clone, Copy)]
struct Most;

impl Most {
    const ENDS: usize = 10;

    const HEAD: usize = 39;

    const POINT: usize = 60;

    const FOOT: usize = 21;
}

// ---- the lines of a point

// The bound on the blocks that a single preemption costs.
fn once_of(x: PointFigures) -> u32
    requires { Sums (figured_of x) }
    ensures { result ≡ once_of (figured_of x) }
{
    let delayed = x.later + x.chain;
    let missing = x.high.saturating_sub(x.dead.max(x.need));
    x.save + x.reload + delayed.min(missing)
}

// The numbers of the line of point p, which has these figures. The last one is once.
fn point_numbers(p: usize, x: PointFigures) -> [u32; 11]
    requires { (p < most_points) × Sums (figured_of x) }
    ensures { result ≡ point_numbers true p (figured_of x) }
{
    let once = once_of(x);
    [
        p as u32, x.high, x.dead, x.need, x.save, x.reload, x.later, x.chain, x.cost, x.fill, once,
    ]
}

// How many of them a line shows: once only where a price is a number of blocks.
fn shown(price: Price) -> usize
    ensures { result ≡ shown (shows_once price) }
{
    if price.start == 0 && price.each == 1 {
        11
    } else {
        10
    }
}

// Puts the line of point p of function f, and returns its cost.
fn put_point<S: Sink>(out: &mut S, sheet: Sheet, f: usize, p: usize) -> u32
    requires { (f < sheet.header.funcs) × (p < size_at sheet.work.now f)
        × Room (S.end out.old) (point_part sheet.price sheet.work.now sheet.header f p) (S.room out.old) }
    ensures { Adds S.Puts (point_part sheet.entry.price sheet.entry.work.now sheet.entry.header f p) out.old result out.new }
{
    let point = sheet.point(f, p);
    let numbers = point_numbers(p, point);
    print::put_line(out, b"  (at", &numbers[..shown(sheet.price)]);
    point.cost
}

// ---- the lines of a function

// Puts the lines of the points of function f, and returns the sum of their costs.
fn put_points<S: Sink>(out: &mut S, sheet: Sheet, f: usize) -> u32
    requires { (f < sheet.header.funcs)
        × Room (S.end out.old) (points_part sheet.price sheet.work.now sheet.header f (size_at sheet.work.now f)) (S.room out.old) }
    ensures { Adds S.Puts (points_part sheet.entry.price sheet.entry.work.now sheet.entry.header f (size_at sheet.entry.work.now f)) out.old result out.new }
{
    let mut total = 0;
    for p in 0..tables::span_at(sheet.work, f).size {
        total += put_point(out, sheet, f, p);
    }
    total
}

// The numbers of the line that opens function f.
fn func_numbers(sheet: Sheet, f: usize) -> [u32; 6]
    requires { f < sheet.header.funcs }
    ensures { (line_text (bytes "  (func") result ≡ (head_part sheet.entry.price sheet.entry.work.now sheet.entry.header f).text) × (length result ≡ 6) }
{
    let x = sheet.func(f);
    [f as u32, x.frame, x.shortest, x.longest, x.spill, x.chain]
}

// Puts the lines of function f, and returns the sum of the costs of its points.
fn put_func<S: Sink>(out: &mut S, sheet: Sheet, f: usize) -> u32
    requires { (f < sheet.header.funcs) × Room (S.end out.old) (func_part sheet.price sheet.work.now sheet.header f) (S.room out.old) }
    ensures { Adds S.Puts (func_part sheet.entry.price sheet.entry.work.now sheet.entry.header f) out.old result out.new }
{
    print::put_line(out, b"  (func", &func_numbers(sheet, f));
    put_points(out, sheet, f)
}

// ---- the report

// Puts the lines of all functions, and returns the sum of the costs of all points.
fn put_funcs<S: Sink>(out: &mut S, sheet: Sheet) -> u32
    requires { Room (S.end out.old) (funcs_part sheet.price sheet.work.now sheet.header sheet.header.funcs) (S.room out.old) }
    ensures { Adds S.Puts (funcs_part sheet.entry.price sheet.entry.work.now sheet.entry.header sheet.entry.header.funcs) out.old result out.new }
{
    let mut total = 0;
    for f in 0..sheet.header.funcs {
        let cost = put_func(out, sheet, f);
        total += cost;
    }
    total
}

// Puts the report.
fn put_lines<S: Sink>(out: &mut S, sheet: Sheet)
    requires { S.end out.old + length (report_in sheet.price sheet.work.now sheet.header) ≤ S.room out.old }
    ensures { S.Puts (report_in sheet.entry.price sheet.entry.work.now sheet.entry.header) out.old out.new }
{
    out.put(b"(report\n");
    let total = put_funcs(out, sheet);
    print::put_line(out, b"  (total", &[total]);
    out.put(b")\n");
}

// How many bytes a report with this header has at most, whatever its figures are.
pub fn most_length(h: Header) -> usize
    requires { (h.funcs ≤ most_funcs) × (h.points ≤ most_in_all) }
    ensures { result ≡ most_length h }
{
    Most::ENDS + Most::FOOT + Most::HEAD * h.funcs + Most::POINT * h.points
}

// How many bytes the report has.
pub fn report_length(sheet: Sheet) -> usize
    ensures { (result ≡ length (report_in sheet.entry.price sheet.entry.work.now sheet.entry.header)) × (result ≤ most_report) }
{
    let mut lines = Counter { count: 0 };
    put_lines(&mut lines, sheet);
    lines.count
}

// Writes the report over the first bytes of the output, and returns how many they are.
pub fn put_report(output: &mut [u8], sheet: Sheet) -> usize
    requires { length (report_in sheet.price sheet.work.now sheet.header) ≤ length output.old }
    ensures { (result ≡ length (report_in sheet.entry.price sheet.entry.work.now sheet.entry.header))
        × (output.new ≡ over (report_in sheet.entry.price sheet.entry.work.now sheet.entry.header) output.old) }
{
    let mut lines = Writer {
        out: output,
        end: 0,
    };
    put_lines(&mut lines, sheet);
    lines.end
}
