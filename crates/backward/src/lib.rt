// The backward gen/kill data-flow kernel over the points of one function: rounds from the last point to the first until a round changes nothing.
#![tactic(auto)]

ghost use Rattle.std.specs.Prelude.{◌≡◌, ◌<◌, ◌≤◌, length};
ghost use Rattle.model.specs.Walk.{leads};
ghost use Rattle.tables.specs.Tables.{func_in};
ghost use Rattle.tables.specs.Valid.{Kept};
ghost use Rattle.flow.specs.Flow.{targets};
ghost use Rattle.backward.specs.Backward.{Solved};
ghost use Rattle.backward.specs.Rounds.{joined, set_at, There, Right, Round};

use flow::{Flow, Next};

// What comes from the points that are next.
fn from_next(next: Next, sets: &[u64]) -> u64
    requires { There (targets next) sets.now }
    ensures { result ≡ joined sets.now (targets next) }
{
    match next {
        Next::Nowhere => 0,
        Next::To(q) => sets[q],
        Next::Fork(q, r) => bits::union_of(sets[q], sets[r]),
    }
}

// The set of point p, from the sets of the points to which it leads.
fn set_at(flow: Flow, p: usize, sets: &[u64]) -> u64
    requires { (flow.span.size ≤ length sets.now) × (p < flow.span.size) }
    ensures { result ≡ set_at (leads (func_in flow.entry.work.now flow.entry.span)) flow.entry.gens.now flow.entry.kills.now sets.now p }
{
    flow.transfer(p, from_next(flow.next(p), sets))
}

// One round from the last point to the first; whether a set changed.
fn round(flow: Flow, sets: &mut [u64]) -> bool
    requires { (flow.span.size ≤ length sets.old)
        × Right (leads (func_in flow.work.now flow.span)) flow.gens.now flow.kills.now flow.span.size sets.old }
    ensures { Round (leads (func_in flow.entry.work.now flow.entry.span)) flow.entry.gens.now flow.entry.kills.now flow.entry.span.size 0
        sets.old result sets.new }
{
    let mut changed = false;
    for p in (0..flow.span.size).rev() {
        let m = set_at(flow, p, sets);
        if m != sets[p] {
            sets[p] = m;
            changed = true;
        }
    }
    changed
}

// For the points of a function: which bits some walk from each meets. The first entries of sets are the answer, whatever they held; the others stay.
pub fn backward(flow: Flow, sets: &mut [u64])
    requires { flow.span.size ≤ length sets.old }
    ensures { Solved (leads (func_in flow.entry.work.now flow.entry.span)) flow.entry.span.size flow.entry.gens.now flow.entry.kills.now sets.new
        × Kept flow.entry.span.size sets.old sets.new }
{
    sets[..flow.span.size].fill(0);
    while round(flow, sets) {}
}
