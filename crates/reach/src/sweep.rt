// One sweep over the points of a function, in their order. The function passes if every point is reached on the way, no load has its offset in its
// set, and no lead to a lower point brings anything new there. It then has no refusal 11 or 13. A loop passes if it is entered at its first point and
// no other back edge is needed. A point's set has the offsets that some walk may not have stored before it.
ghost use Rattle.std.specs.Prelude.{◌≡◌, true, ℕ, ◌<◌, ◌≤◌, T};
ghost use mathlib.Core.List.{[], ◌∷◌, Memᴰ};
ghost use Rattle.flow.specs.Flow.{targets};
ghost use Rattle.model.specs.declared.Point.{Point as AnyPoint};
ghost use Rattle.model.specs.Limits.{most_stack, most_points};
ghost use Rattle.model.specs.Task.{offset_fits, point};
ghost use Rattle.model.specs.Walk.{leads};
ghost use Rattle.tables.specs.Tables.{item, func_in};
ghost use Rattle.reach.specs.Reach.{Clean, CleanBefore};
ghost use Rattle.reach.specs.Sweep.{Most, UnionAt, Arrived, Passes, Accessed, Stepped};

use super::{Bytes, Sets, point};
use flow::Next;
use model::{Limits, Point};
use tables::{FitFunc, LinkedTask};

// What a point does with its set: it may be at fault, it leads to the next point with a set, or it leads elsewhere. These are three ways on, and no
// Option<u64> in a Result is plainer.
#[derive(Clone, Copy)]
pub enum Step {
    Fails,
    Falls(u64),
    Leaves,
}

// The set at each point, and the mark of the function that stored it there: a set is valid only with the mark of the function that is swept.
#[derive(Drop)]
struct Sweep {
    sets: Sets,
    marks: Bytes,
}

impl Sweep {
    // The set at point q where the set m comes to it.
    fn union_at(&self, mark: u8, q: usize, m: u64) -> u64
        requires { q < most_points }
        ensures { UnionAt mark q m self.now.sets self.now.marks result }
    {
        if self.marks[q] == mark {
            return bits::union_of(m, self.sets[q]);
        }
        m
    }

    // The set m comes from point p to point q. It joins the set of a higher point, and may bring a lower one nothing new.
    fn arrive(&mut self, mark: u8, p: usize, q: usize, m: u64) -> bool
        requires { q < most_points }
        ensures { result ≡ true → Arrived mark p (q ∷ []) m self.old.sets self.old.marks self.new.sets self.new.marks }
    {
        if p < q {
            self.sets[q] = self.union_at(mark, q, m);
            self.marks[q] = mark;
            return true;
        }
        let old = self.sets[q];
        bits::union_of(old, m) == old
    }

    // The set m goes on from point p, which is no load and no store, to the points that are next.
    fn onward(&mut self, next: Next, mark: u8, p: usize, m: u64) -> Step
        requires { (p < most_points) × ((q : ℕ) → Memᴰ q (targets next) → q < most_points) }
        ensures { (x : AnyPoint) → Passes x m m
            → Stepped mark p (targets next) x m self.old.sets self.old.marks self.new.sets self.new.marks result }
    {
        match next {
            Next::Nowhere => Step::Leaves,
            Next::To(q) => {
                if q == p + 1 {
                    return Step::Falls(m);
                }
                if self.arrive(mark, p, q, m) {
                    return Step::Leaves;
                }
                Step::Fails
            }
            Next::Fork(q, r) => {
                if !self.arrive(mark, p, q, m) {
                    return Step::Fails;
                }
                if self.arrive(mark, p, r, m) {
                    return Step::Leaves;
                }
                Step::Fails
            }
        }
    }

    // Point p with the set m. One comparison tells a load or a store.
    fn visit(&mut self, func: FitFunc, mark: u8, p: usize, m: u64) -> Step
        requires { p < func.span.size }
        ensures { Stepped mark p (leads (func_in func.entry.work.now func.entry.span) p) (point (func_in func.entry.work.now func.entry.span) p) m
            self.old.sets self.old.marks self.new.sets self.new.marks result }
    {
        if tables::access_at(func.work, func.span.base + p) {
            return access(func.point(p), m);
        }
        self.onward(flow::next_at(func.work, func.span, p), mark, p, m)
    }

    // Point q has the mark, or it is past the end.
    fn marked_or_past(&self, mark: u8, q: usize, n: usize) -> bool
        requires { n ≤ most_points }
        ensures { result ≡ true → q < n → item self.now.marks q ≡ mark }
    {
        q >= n || self.marks[q] == mark
    }

    // The points of one function, whose mark is above all that stand. The points before p are reached, and so is p, to which the set carried comes.
    fn points(&mut self, func: FitFunc, mark: u8) -> bool
        requires { (q : ℕ) → item self.old.marks q < mark }
        ensures { result ≡ true → Clean func.entry.work.now func.entry.span × Most mark self.new.marks }
    {
        let mut carried = bits::low_bits(func.span.frame);
        for p in 0..func.span.size {
            let m = self.union_at(mark, p, carried);
            self.sets[p] = m;
            carried = match self.visit(func, mark, p, m) {
                Step::Falls(next) => next,
                Step::Leaves if self.marked_or_past(mark, p + 1, func.span.size) => 0,
                Step::Fails | Step::Leaves => return false,
            };
        }
        true
    }
}

// A load or a store: an offset in the set may not be loaded, and a store takes its offset out.
fn access(x: Point, m: u64) -> Step
    requires { T (offset_fits most_stack x) }
    ensures { Accessed x m result }
{
    if let Point::Load(o) = x {
        if bits::bit_of(m, o) == 1 {
            return Step::Fails;
        }
        return Step::Falls(m);
    }
    Step::Falls(bits::difference_of(m, point::kill_of(x)))
}

// How many functions, from the first on, pass the sweep. The mark of each is above those of the functions before it, so that no mark has to be cleared.
pub fn clean_funcs(linked: LinkedTask) -> usize
    ensures { CleanBefore linked.entry.task.work.now linked.entry.task.header result }
{
    let mut sweep = Sweep {
        sets: [0; Limits::POINTS],
        marks: [0; Limits::POINTS],
    };
    for f in 0..linked.task.header.funcs {
        if !sweep.points(linked.func(f), (f + 1) as u8) {
            return f;
        }
    }
    linked.task.header.funcs
}
