// The events that move blocks between cache and memory: a call, an ensure and a preemption. Each adds the price of what it moves, and what the sheet
// allows it, to the totals. The buffers are parameters of their own and no struct, so that each signature says which of them are read and which are
// written.
#![tactic(auto)]

ghost use Rattle.std.specs.Prelude.{ℕ, ◌+◌, ◌≤◌, length};
ghost use Rattle.model.specs.declared.Point.TheVariants.{Call, Ensure};
ghost use Rattle.model.specs.Limits.{most_stack};
ghost use Rattle.machine.specs.Moves.{core_of, OnCache, Good};
ghost use Rattle.steps.specs.Steps.{Stays, Added, most_total};
ghost use Rattle.moves.specs.Moves.{StepsIn, IsPreemption, Inside, Enters};

use bounds::Bounds;
use columns::Columns;
use prices::Price;
use steps::{State, Turned};
use tables::{Header, Span};

// A total, with a part more.
fn added(total: u64, part: u32) -> u64
    requires { total ≤ most_total }
    ensures { Added total part result }
{
    total + part as u64
}

// The running frame becomes a caller, at the point after the call, and function g is entered.
pub fn call_step(
    work: &mut [u32],
    h: Header,
    price: Price,
    x: State,
    cache: &[u32],
    memory: &mut [u32],
    g: u32,
) -> Turned
    requires { Enters price work.old h x cache.now memory.old g }
    ensures { ((v : ℕ) → StepsIn price work.old h x (Call g) v cache.now memory.old
        result work.new cache.now memory.new) × Stays work.old work.new }
{
    let f = g as usize;
    let callee = tables::span_at(work, f);
    let bound = work[Bounds::SPILL + f];
    steps::put_caller(work, x.depth - 1, x.f, x.p + 1);
    let moved = x.machine.reserve(cache, memory, callee.frame);
    let cost = prices::moves_price(price, moved.blocks, 0);
    let state = State {
        depth: x.depth + 1,
        f,
        p: 0,
        machine: moved.machine,
        moved: added(x.moved, cost),
        allowed: added(x.allowed, bound),
    };
    Turned { state, answer: 0 }
}

pub fn ensure_step(
    work: &[u32],
    h: Header,
    price: Price,
    x: State,
    s: Span,
    cache: &mut [u32],
    memory: &[u32],
    k: u32,
) -> Turned
    requires { Inside price work.now h x s × OnCache x.machine cache.old × Good (core_of x.machine cache.old memory.now)
        × (x.machine.st + k ≤ length memory.now) × (k ≤ most_stack) }
    ensures { (v : ℕ) → StepsIn price work.now h x (Ensure k) v cache.old memory.now
        result work.now cache.new memory.now }
{
    let bound = columns::figure_at(work, Bounds::FILL, s, x.p);
    let moved = x.machine.ensure(cache, memory, k);
    let cost = prices::moves_price(price, 0, moved.blocks);
    let state = State {
        p: x.p + 1,
        machine: moved.machine,
        moved: added(x.moved, cost),
        allowed: added(x.allowed, bound),
        ..x
    };
    Turned { state, answer: 0 }
}

// A preemption by a task that leaves v in every block, at a point of s.
pub fn preempt(
    work: &[u32],
    h: Header,
    price: Price,
    x: State,
    s: Span,
    cache: &mut [u32],
    memory: &mut [u32],
    v: u32,
) -> Turned
    requires { Inside price work.now h x s × OnCache x.machine cache.old × Good (core_of x.machine cache.old memory.old) }
    ensures { IsPreemption price work.now h x v cache.old memory.old
        result cache.new memory.new }
{
    let dead = columns::figure_at(work, Columns::DEAD, s, x.p);
    let need = columns::figure_at(work, Columns::NEED, s, x.p);
    let bound = columns::figure_at(work, Bounds::COST, s, x.p);
    let moved = x.machine.preempt(cache, memory, dead, need, v);
    let cost = prices::moves_price(price, moved.out, moved.back);
    let state = State {
        machine: moved.machine,
        moved: added(x.moved, cost),
        allowed: added(x.allowed, bound),
        ..x
    };
    Turned { state, answer: 0 }
}
