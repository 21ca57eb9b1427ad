// Judges a read task in the tables: refusals 7 to 10, by line and then by number.
#![tactic(auto)]

ghost use Rattle.std.specs.Prelude.{◌≡◌, ◌&&◌, ◌-◌, ◌<◌, ltb};
ghost use Rattle.std.proofs.Math.Option.{some};
ghost use Rattle.model.specs.Rows.{row_verdict};
ghost use Rattle.model.specs.Refusal.{ensure_fits, target_fits, link_row, link_rows};
ghost use Rattle.tables.specs.Tables.{span_at, func_in, task_of};
ghost use Rattle.links.specs.Links.{refuse_unless, kind_row, func_row};

use model::{Point, Refusal, Row, Verdict};
use tables::{HeldFunc, HeldTask};

// 7: a call goes to a later function that exists.
fn callee_fits(funcs: usize, f: usize, callee: u32) -> bool
    ensures { result ≡ (ltb f callee && ltb callee funcs) }
{
    let g = callee as usize;
    f < g && g < funcs
}

// Refuses by this row unless the test holds.
fn refuse_unless(test: bool, row: Row) -> Result<(), Row>
    ensures { result ≡ refuse_unless test row (Ok tt) }
{
    if test { Ok(()) } else { Err(row) }
}

// 8: an ensure stands directly after a call and repeats the frame.
fn ensure_fits(func: HeldFunc, p: usize, k: u32) -> bool
    ensures { result ≡ ensure_fits (func_in func.entry.work.now func.entry.span) p (some k) }
{
    if p == 0 {
        return false;
    }
    points::is_call(func.point_or_return(p - 1)) & (k == func.span.frame)
}

// 9: a target is a point of the function and no ensure.
fn target_fits(func: HeldFunc, target: u32) -> bool
    ensures { result ≡ target_fits (func_in func.entry.work.now func.entry.span) target }
{
    let q = target as usize;
    (q < func.span.size) & !points::is_ensure(func.point_or_return(q))
}

// 7 to 10 at point p of function f, which is x: the tests that a point of its kind can fail, by number.
// 8: an ensure comes directly after a call. 10: the last point does not lead past the end.
fn kind_row(func: HeldFunc, funcs: usize, f: usize, p: usize, x: Point) -> Result<(), Row>
    requires { p < func.span.size }
    ensures { result ≡ kind_row funcs f (func_in func.entry.work.now func.entry.span) p (ltb p (func.entry.span.size - 1)) x }
{
    let next = p < func.span.size - 1;
    match x {
        Point::Load(_) | Point::Store(_) => refuse_unless(next, Row::LastPoint),
        Point::Call(g) => {
            refuse_unless(callee_fits(funcs, f, g), Row::Callee)?;
            refuse_unless(points::is_ensure(func.point_or_return(p + 1)), Row::Pairing)?;
            refuse_unless(next, Row::LastPoint)
        }
        Point::Ensure(k) => {
            refuse_unless(ensure_fits(func, p, k), Row::Pairing)?;
            refuse_unless(next, Row::LastPoint)
        }
        Point::Goto(q) => refuse_unless(target_fits(func, q), Row::Target),
        Point::Either(q, r) => {
            refuse_unless(target_fits(func, q) && target_fits(func, r), Row::Target)
        }
        Point::Return => Ok(()),
    }
}

// 7 to 10 at point p of function f, which is func.
fn link_row(task: HeldTask, f: usize, func: HeldFunc, p: usize) -> Verdict
    requires { (f < task.header.funcs) × (func.work.now ≡ task.work.now) × (func.span ≡ span_at task.work.now f) × (p < func.span.size) }
    ensures { result ≡ row_verdict (link_row (task_of task.entry.work.now task.entry.header) f p) }
{
    let x = func.point(p);
    let place = tables::line_in(f, func.span.base, p);
    kind_row(func, task.header.funcs, f, p, x).map_err(|row| Refusal { row, place })
}

// 7 to 10 at the points of function f. Before the last point none of them can refuse a load or a store.
fn func_rows(task: HeldTask, f: usize) -> Verdict
    requires { f < task.header.funcs }
    ensures { result ≡ row_verdict (func_row (task_of task.entry.work.now task.entry.header) f) }
{
    let func = task.func(f);
    if func.span.size == 0 {
        return Ok(());
    }
    let last = func.span.size - 1;
    for p in 0..last {
        if !func.accesses(p) {
            link_row(task, f, func, p)?;
        }
    }
    link_row(task, f, func, last)
}

// 7 to 10: the first point, by line, that one of them refuses.
pub fn link_rows(task: HeldTask) -> Verdict
    ensures { result ≡ row_verdict (link_rows (task_of task.entry.work.now task.entry.header)) }
{
    for f in 0..task.header.funcs {
        func_rows(task, f)?;
    }
    Ok(())
}
