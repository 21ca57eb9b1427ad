// The forward gen/kill data-flow kernel over the points of one function, with a worklist of the points still to visit.
#![tactic(auto)]

ghost use Rattle.std.specs.Prelude.{◌≡◌, ◌≤◌, length, true};
ghost use Rattle.model.specs.Walk.{leads};
ghost use Rattle.tables.specs.Tables.{func_in};
ghost use Rattle.tables.specs.Valid.{Kept};
ghost use Rattle.flow.specs.Flow.{targets};
ghost use Rattle.worklist.specs.Worklist.{worklist_of, codes, Ends};
ghost use Rattle.forward.specs.Forward.{Solved};
ghost use Rattle.forward.specs.Visits.{progress_of, Merged, Propagated, Visits, Onward, Listed, Mergeable, MergeableAll};

use flow::{Flow, Next};
use model::Limits;
use worklist::{Visit, Worklist};

// The worklist has room for each point that a function may have.
type Points = Worklist<{ Limits::POINTS }>;

// The set m is merged into that of point q, which goes into the worklist if it is seen for the first time or its set has grown. The result says
// whether it was put there.
fn merge(sets: &mut [u64], state: &mut [Visit], list: &mut Points, q: usize, m: u64) -> bool
    requires { Mergeable q (progress_of sets.old state.old list.old.points list.old.count) }
    ensures { Merged q m (progress_of sets.old state.old list.old.points list.old.count)
        (progress_of sets.new state.new list.new.points list.new.count)
        × (result ≡ true → Ends q (worklist_of state.new list.new.points list.new.count)) }
{
    let old = sets[q];
    let new = bits::union_of(old, m);
    match state[q] {
        Visit::Waiting => {
            sets[q] = new;
            false
        }
        Visit::Seen if new == old => false,
        _ => {
            sets[q] = new;
            list.put(state, q);
            true
        }
    }
}

// The same, and the last point of the worklist is taken. Where it is q, that comes from a register: a load would wait for the store in put.
fn follow(
    sets: &mut [u64],
    state: &mut [Visit],
    list: &mut Points,
    q: usize,
    m: u64,
) -> Option<usize>
    requires { Mergeable q (progress_of sets.old state.old list.old.points list.old.count) }
    ensures { Onward (Merged q m (progress_of sets.old state.old list.old.points list.old.count))
        (progress_of sets.new state.new list.new.points list.new.count) result }
{
    if merge(sets, state, list, q, m) {
        list.take_last(state, q);
        return Some(q);
    }
    list.take(state)
}

// The set m is merged into that of each point that is next, the first of two last, so that it is visited first. Then the last point of the worklist
// is taken.
fn propagate(
    next: Next,
    m: u64,
    sets: &mut [u64],
    state: &mut [Visit],
    list: &mut Points,
) -> Option<usize>
    requires { MergeableAll (targets next) (progress_of sets.old state.old list.old.points list.old.count) }
    ensures { Onward (Propagated m (targets next) (progress_of sets.old state.old list.old.points list.old.count))
        (progress_of sets.new state.new list.new.points list.new.count) result }
{
    match next {
        Next::Nowhere => list.take(state),
        Next::To(q) => follow(sets, state, list, q, m),
        Next::Fork(q, r) => {
            merge(sets, state, list, r, m);
            follow(sets, state, list, q, m)
        }
    }
}

// Points are visited until the worklist is empty: what leaves the one that was taken last is merged into the points that are next.
fn drain(flow: Flow, sets: &mut [u64], state: &mut [Visit], list: &mut Points)
    requires { Listed flow.span.size (progress_of sets.old state.old list.old.points list.old.count) }
    ensures { Visits (leads (func_in flow.entry.work.now flow.entry.span)) flow.entry.gens.now flow.entry.kills.now
        (progress_of sets.old state.old list.old.points list.old.count)
        (progress_of sets.new state.new list.new.points list.new.count)
        × (list.new.count ≡ 0)
        × Listed flow.entry.span.size (progress_of sets.new state.new list.new.points list.new.count) }
{
    let mut last = list.take(state);
    while let Some(p) = last {
        let m = flow.transfer(p, sets[p]);
        last = propagate(flow.next(p), m, sets, state, list);
    }
}

// For the points of a function: which of them a walk from point 0 reaches, and which bits such walks carry to each. The first entries of sets
// and state are the answer, whatever they held; the others stay.
pub fn solve(flow: Flow, entry: u64, sets: &mut [u64], state: &mut [Visit])
    requires { (flow.span.size ≤ length sets.old) × (flow.span.size ≤ length state.old) }
    ensures { Solved (leads (func_in flow.entry.work.now flow.entry.span)) flow.entry.span.size entry flow.entry.gens.now flow.entry.kills.now
        sets.new (codes state.new)
        × Kept flow.entry.span.size sets.old sets.new × Kept flow.entry.span.size (codes state.old) (codes state.new) }
{
    sets[..flow.span.size].fill(0);
    state[..flow.span.size].fill(Visit::Unseen);
    let mut list = Points::new();
    sets[0] = entry;
    list.put(state, 0);
    drain(flow, sets, state, &mut list);
}

// The same with the states as numbers: 1 for a point that is reached, and 0 for any other.
pub fn forward(flow: Flow, entry: u64, sets: &mut [u64], state: &mut [u8])
    requires { (flow.span.size ≤ length sets.old) × (flow.span.size ≤ length state.old) }
    ensures { Solved (leads (func_in flow.entry.work.now flow.entry.span)) flow.entry.span.size entry flow.entry.gens.now flow.entry.kills.now
        sets.new state.new
        × Kept flow.entry.span.size sets.old sets.new × Kept flow.entry.span.size state.old state.new }
{
    let mut visits = [Visit::Unseen; Limits::POINTS];
    solve(flow, entry, sets, &mut visits);
    for p in 0..flow.span.size {
        state[p] = visits[p] as u8;
    }
}
