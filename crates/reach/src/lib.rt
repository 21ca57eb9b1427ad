// Judges a read and linked task in the tables by refusals 11, 12 and 13, in this order. Functions that pass the sweep have no refusal 11 or 13. From
// the first function that does not pass, the forward kernel decides.
#![tactic(auto)]

ghost use Rattle.std.specs.Prelude.{Bool, true, ◌≡◌, ℕ, ◌+◌, ◌<◌, ◌≤◌, length};
ghost use Rattle.bits.specs.Bits.{Marks};
ghost use Rattle.model.specs.declared.Row.TheVariants.{Unreachable, Uninitialised};
ghost use Rattle.model.specs.Limits.{most_funcs, most_in_all};
ghost use Rattle.model.specs.Refusal.{walk_rows};
ghost use Rattle.model.specs.Rows.{row_verdict};
ghost use Rattle.model.specs.Walk.{stored, is};
ghost use Rattle.model.specs.WellFormed.{Shaped, Linked};
ghost use Rattle.tables.specs.Tables.{item, point_at, task_of};
ghost use Rattle.worklist.specs.Worklist.{codes};
ghost use Rattle.reach.specs.Reach.{first_failing, seen, initialised, Tells, verdict_from};

use flow::Flow;
use model::{Limits, Refusal, Row, Verdict};
use tables::{FitFunc, HeldTask, LinkedTask, Span};
use worklist::Visit;

mod calls;
mod point;
mod sweep;

// A set for each point of a function, and a byte for each.
type Sets = [u64; Limits::POINTS];

type Bytes = [u8; Limits::POINTS];

// What the kernel works in, with an entry for each point of a function. No point generates an offset: the Scratch of `problems`
// has no such fact.
#[derive(Drop)]
struct Scratch {
    gens: Sets,
    kills: Sets,
    sets: Sets,
    state: [Visit; Limits::POINTS],
    ghost no_gens: { (p : ℕ) → item gens p ≡ 0 },
}

// Every point is marked as reached. The loop always runs through, so that several marks are looked at at a time; `all` would stop at the first.
fn all_reached(state: &[Visit]) -> bool
    ensures { result ≡ true → (p : ℕ) → p < length state.now → seen (codes state.now) p ≡ true }
{
    let mut all = true;
    for mark in state {
        if *mark == Visit::Unseen {
            all = false;
        }
    }
    all
}

// A row at the first point of function f that does not pass.
fn first_failing<F: Fn(usize) -> bool>(row: Row, f: usize, s: Span, passes: F) -> Verdict
    requires { (f < most_funcs) × (s.base + s.size ≤ most_in_all) × ((p : ℕ) → p < s.size → F.pre passes p) }
    ensures { (test : ℕ → Bool) → ((p : ℕ) (b : Bool) → p < s.size → F.post passes p b → b ≡ test p)
        → result ≡ row_verdict (first_failing row f s test) }
{
    for p in 0..s.size {
        if !passes(p) {
            return Err(Refusal {
                row,
                place: tables::line_in(f, s.base, p),
            });
        }
    }
    Ok(())
}

// Refusal 11 in function f: the first point that is not marked as reached.
fn first_unreached(f: usize, s: Span, state: &[Visit]) -> Verdict
    requires { (f < most_funcs) × (s.base + s.size ≤ most_in_all) × (s.size ≤ length state.now) }
    ensures { result ≡ row_verdict (first_failing Unreachable f s (seen (codes state.now))) }
{
    if all_reached(&state[..s.size]) {
        return Ok(());
    }
    first_failing(Row::Unreachable, f, s, |p| state[p] != Visit::Unseen)
}

// Refusal 13 in function f: the first load whose offset is in its set, so that some walk reaches it with no store of the offset before.
fn first_unstored(f: usize, func: FitFunc, sets: &[u64]) -> Verdict
    requires { (f < most_funcs) × (func.span.size ≤ length sets.now) }
    ensures { result ≡ row_verdict (first_failing Uninitialised f func.entry.span (initialised func.entry.work.now func.entry.span sets.now)) }
{
    first_failing(Row::Uninitialised, f, func.span, |p| {
        !point::has_load(sets[p], func.point(p))
    })
}

fn fill_kills(func: FitFunc, kills: &mut [u64])
    requires { func.span.size ≤ length kills.old }
    ensures { (p : ℕ) → p < func.entry.span.size
        → Marks (λ j. is j (stored (point_at func.entry.work.now (func.entry.span.base + p)))) (item kills.new p) }
{
    for p in 0..func.span.size {
        kills[p] = point::kill_of(func.point(p));
    }
}

// Runs the kernel over a function. At its entry no offset of the frame is stored; a store kills its own.
fn solve(func: FitFunc, scratch: &mut Scratch)
    ensures { Tells func.entry.work.now func.entry.span scratch.new.sets (codes scratch.new.state) }
{
    fill_kills(func, &mut scratch.kills);
    let flow = Flow::new(func.work, func.span, &scratch.gens, &scratch.kills);
    forward::solve(
        flow,
        bits::low_bits(func.span.frame),
        &mut scratch.sets,
        &mut scratch.state,
    );
}

// The functions from the first on, by the kernel, up to the first refusal 11. What is kept is refusal 12, or else the first refusal 13 so far.
fn solved_rows(linked: LinkedTask, first: usize, calls: Verdict) -> Verdict
    ensures { result ≡ verdict_from (task_of linked.entry.task.work.now linked.entry.task.header) first linked.entry.task.header.funcs calls }
{
    let mut scratch = Scratch {
        gens: [0; Limits::POINTS],
        kills: [0; Limits::POINTS],
        sets: [0; Limits::POINTS],
        state: [Visit::Unseen; Limits::POINTS],
    };
    let mut kept = calls;
    for f in first..linked.task.header.funcs {
        let func = linked.func(f);
        solve(func, &mut scratch);
        first_unreached(f, func.span, &scratch.state)?;
        kept = kept.and(first_unstored(f, func, &scratch.sets));
    }
    kept
}

// 11, 12 and 13, in this order, each by line.
pub fn walk_rows(task: HeldTask) -> Verdict
    requires { Shaped (task_of task.work.now task.header) × Linked (task_of task.work.now task.header) }
    ensures { result ≡ row_verdict (walk_rows (task_of task.entry.work.now task.entry.header)) }
{
    let linked = LinkedTask { task };
    let calls = calls::call_rows(task);
    let clean = sweep::clean_funcs(linked);
    if clean == task.header.funcs {
        return calls;
    }
    solved_rows(linked, clean, calls)
}
