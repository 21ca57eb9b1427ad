// The task that stands in the tables, and one of its functions, each with what a reader of the tables relies on.
ghost use Rattle.std.specs.Prelude.{◌≡◌, ◌+◌, ◌<◌, ℕ, T};
ghost use Rattle.model.specs.Limits.{most_stack};
ghost use Rattle.model.specs.Task.{offset_fits, point};
ghost use Rattle.model.specs.WellFormed.{Shaped, Linked};
ghost use Rattle.tables.specs.Tables.{point_at, span_at, is_access, func_in, task_of};
ghost use Rattle.tables.specs.Valid.{Holds, Lies, Fits};
ghost use Rattle.tables.specs.Unique.{holds_prop};

use super::{Header, Span, access_at, point_at, span_at};
use model::Point;

// A function in the tables.
#[derive(Clone, Copy)]
pub struct HeldFunc<'a> {
    pub work: &'a [u32],
    pub span: Span,
    pub ghost lies: { Lies work.now span },
}

impl HeldFunc<'_> {
    // Its point p.
    pub fn point(self, p: usize) -> Point
        requires { p < self.span.size }
        ensures { result ≡ point_at self.entry.work.now (self.entry.span.base + p) }
    {
        point_at(self.work, self.span.base + p)
    }

    // The same, a return past the end.
    pub fn point_or_return(self, p: usize) -> Point
        ensures { result ≡ point (func_in self.entry.work.now self.entry.span) p }
    {
        if p < self.span.size {
            self.point(p)
        } else {
            Point::Return
        }
    }

    // Whether its point p is a load or a store. One comparison tells.
    pub fn accesses(self, p: usize) -> bool
        requires { p < self.span.size }
        ensures { result ≡ is_access (point_at self.entry.work.now (self.entry.span.base + p)) }
    {
        access_at(self.work, self.span.base + p)
    }
}

// A task in the tables.
#[derive(Clone, Copy)]
pub struct HeldTask<'a> {
    pub work: &'a [u32],
    pub header: Header,
    pub ghost holds: { Holds work.now header } by { holds_prop work.now header },
}

impl<'a> HeldTask<'a> {
    // Its function f.
    pub fn func(self, f: usize) -> HeldFunc<'a>
        requires { f < self.header.funcs }
        ensures work { result.work.now ≡ self.entry.work.now }
        ensures span { result.span ≡ span_at self.entry.work.now f }
    {
        HeldFunc {
            work: self.work,
            span: span_at(self.work, f),
        }
    }
}

// A function in the tables whose walks stay in it, with offsets below its frame.
#[derive(Clone, Copy)]
pub struct FitFunc<'a> {
    pub work: &'a [u32],
    pub span: Span,
    pub ghost fits: { Fits work.now span },
}

impl FitFunc<'_> {
    // Its point p, whose offset fits a set.
    pub fn point(self, p: usize) -> Point
        requires { p < self.span.size }
        ensures there { result ≡ point_at self.entry.work.now (self.entry.span.base + p) }
        ensures offset { T (offset_fits most_stack result) }
    {
        let i = self.span.base + p;
        point_at(self.work, i)
    }
}

// A task in the tables that is shaped and linked, so that the walks of each function stay in it.
#[derive(Clone, Copy)]
pub struct LinkedTask<'a> {
    pub task: HeldTask<'a>,
    pub ghost shaped: { Shaped (task_of task.work.now task.header) },
    pub ghost linked: { Linked (task_of task.work.now task.header) },
}

impl<'a> LinkedTask<'a> {
    // Its function f.
    pub fn func(self, f: usize) -> FitFunc<'a>
        requires { f < self.task.header.funcs }
        ensures work { result.work.now ≡ self.entry.task.work.now }
        ensures span { result.span ≡ span_at self.entry.task.work.now f }
    {
        FitFunc {
            work: self.task.work,
            span: span_at(self.task.work, f),
        }
    }
}
