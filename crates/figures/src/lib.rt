// The figures of a task that judge accepted, for every function and point, worked out in columns behind the tables.
#![tactic(auto)]

ghost use Rattle.std.specs.Prelude.{◌≡◌, suc, ◌+◌, ◌<◌, ◌≤◌, length};
ghost use Rattle.model.specs.Limits.{work_length};
ghost use Rattle.tables.specs.Tables.{task_of};
ghost use Rattle.tables.specs.Valid.{Kept, Settled};
ghost use Rattle.prices.specs.Prices.{Small};
ghost use Rattle.columns.specs.Columns.{columns_end, OnlyColumns};
ghost use Rattle.figures.specs.Figured.{Figured};
ghost use Rattle.figures.specs.Steps.{High, Dead, Need, Next, Fill, index_of, point_columns, Working, ChainedTo, Done, OnlyPoints};

use columns::{Columns, FuncColumns};
use model::Limits;
use prices::Price;
use problems::{FitFunc, Numbers, Scratch};
use tables::Header;

// What the figures of a function are worked out in: the numbers that its points are given, the scratch of its problems, and one figure of its points.
#[derive(Drop)]
struct Buffers {
    values: Numbers,
    scratch: Scratch,
    out: Numbers,
}

// ---- one function for each figure: over a closure and a constant it would be as long as one of them

// The fill of each point of function f.
fn write_fill(work: &mut [u32], h: Header, f: usize, buffers: &mut Buffers)
    requires { Working work.old h f (suc (index_of Fill)) }
    ensures { Working work.new h f (index_of Fill) × OnlyPoints work.old work.new }
{
    let s = tables::span_at(work, f);
    let points = FuncColumns { work, span: s };
    columns::each_point(s, &mut buffers.out, |p| points.fill(h, p));
    columns::put_points(work, Columns::FILL, s, &buffers.out);
}

// q of each point of function f.
fn write_next(work: &mut [u32], h: Header, f: usize, buffers: &mut Buffers)
    requires { Working work.old h f (suc (index_of Next)) }
    ensures { Working work.new h f (index_of Next) × OnlyPoints work.old work.new }
{
    let s = tables::span_at(work, f);
    let points = FuncColumns { work, span: s };
    columns::each_point(s, &mut buffers.values, |p| points.kept(p));
    let func = FitFunc { work, span: s };
    problems::next_points(
        func,
        &buffers.values,
        &mut buffers.scratch.gens,
        &mut buffers.scratch.kills,
        &mut buffers.scratch.sets,
        &mut buffers.out,
    );
    columns::put_points(work, Columns::NEXT, s, &buffers.out);
}

// need of each point of function f.
fn write_need(work: &mut [u32], h: Header, f: usize, buffers: &mut Buffers)
    requires { Working work.old h f (suc (index_of Need)) }
    ensures { Working work.new h f (index_of Need) × OnlyPoints work.old work.new }
{
    let s = tables::span_at(work, f);
    let func = FitFunc { work, span: s };
    problems::need_points(
        func,
        &mut buffers.scratch.gens,
        &mut buffers.scratch.kills,
        &mut buffers.scratch.sets,
        &mut buffers.out,
    );
    columns::put_points(work, Columns::NEED, s, &buffers.out);
}

// dead of each point of function f.
fn write_dead(work: &mut [u32], h: Header, f: usize, buffers: &mut Buffers)
    requires { Working work.old h f (suc (index_of Dead)) }
    ensures { Working work.new h f (index_of Dead) × OnlyPoints work.old work.new }
{
    let s = tables::span_at(work, f);
    let func = FitFunc { work, span: s };
    problems::dead_points(
        func,
        &mut buffers.scratch.gens,
        &mut buffers.scratch.kills,
        &mut buffers.scratch.sets,
        &mut buffers.out,
    );
    columns::put_points(work, Columns::DEAD, s, &buffers.out);
}

// high of each point of function f.
fn write_high(work: &mut [u32], h: Header, f: usize, buffers: &mut Buffers)
    requires { Working work.old h f (suc (index_of High)) }
    ensures { Working work.new h f (index_of High) × OnlyPoints work.old work.new }
{
    let s = tables::span_at(work, f);
    let points = FuncColumns { work, span: s };
    columns::each_point(s, &mut buffers.values, |p| points.cut(h, p));
    let start = h.stack.min(work[Columns::ENTRY + f] + s.frame);
    let func = FitFunc { work, span: s };
    problems::high_points(
        func,
        start,
        &buffers.values,
        &mut buffers.scratch.gens,
        &mut buffers.scratch.kills,
        &mut buffers.scratch.sets,
        &mut buffers.scratch.state,
        &mut buffers.out,
    );
    columns::put_points(work, Columns::HIGH, s, &buffers.out);
}

// The figures of the points of function f, from the last column to the first: each needs only columns behind its own, and D, d, E and chain.
fn write_figures(work: &mut [u32], h: Header, f: usize, buffers: &mut Buffers)
    requires { Working work.old h f point_columns }
    ensures { Working work.new h f 0 × OnlyPoints work.old work.new }
{
    write_fill(work, h, f, buffers);
    write_next(work, h, f, buffers);
    write_need(work, h, f, buffers);
    write_dead(work, h, f, buffers);
    write_high(work, h, f, buffers);
}

// Raises the chain and E of the functions that function f calls.
fn raise_callees(work: &mut [u32], h: Header, price: Price, f: usize, buffers: &mut Buffers)
    requires { Working work.old h f 0 × ChainedTo price work.old h f × Small price }
    ensures { Done price work.new h (f + 1) × OnlyColumns work.old work.new }
{
    let s = tables::span_at(work, f);
    let own = work[Columns::CHAIN + f];
    let points = FuncColumns { work, span: s };
    columns::each_point(s, &mut buffers.values, |p| points.chained(own, price, p));
    columns::each_point(s, &mut buffers.out, |p| points.high(p));
    columns::raise(work, s, Columns::CHAIN, &buffers.values);
    columns::raise(work, s, Columns::ENTRY, &buffers.out);
}

// All figures of function f; the functions before f have theirs, so all callers of f.
fn figure_func(work: &mut [u32], h: Header, price: Price, f: usize, buffers: &mut Buffers)
    requires { Done price work.old h f × (f < h.funcs) }
    ensures { Done price work.new h (f + 1) × OnlyColumns work.old work.new }
{
    write_figures(work, h, f, buffers);
    raise_callees(work, h, price, f, buffers);
}

// The figures of every function, from the first to the last.
fn figure_funcs(work: &mut [u32], h: Header, price: Price, buffers: &mut Buffers)
    requires { Done price work.old h 0 }
    ensures { Done price work.new h h.funcs × OnlyColumns work.old work.new }
{
    for f in 0..h.funcs {
        figure_func(work, h, price, f, buffers);
    }
}

// Works out all figures of the task that the tables hold, at this price of a move, and keeps them in the columns. The task and everything past the
// columns are as they were.
pub fn figure_task(work: &mut [u32], h: Header, price: Price)
    requires { Settled work.old h × (work_length ≤ length work.old) × Small price }
    ensures { Figured price work.new h × (task_of work.new h ≡ task_of work.old h)
        × Kept columns_end work.old work.new }
{
    let mut buffers = Buffers {
        values: [0; Limits::POINTS],
        scratch: Scratch::new(),
        out: [0; Limits::POINTS],
    };
    displace::displacements(
        work,
        h,
        &mut buffers.values,
        &mut buffers.scratch.gens,
        &mut buffers.scratch.kills,
        &mut buffers.scratch.sets,
    );
    columns::clear_column(work, Columns::CHAIN);
    columns::clear_column(work, Columns::ENTRY);
    figure_funcs(work, h, price, &mut buffers);
}
