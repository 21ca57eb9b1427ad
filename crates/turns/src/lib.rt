// One event of a run: a step, by the kind of the point at which the running frame stands, or a preemption; and the rows that refuse an event.
#![tactic(auto)]

ghost use Rattle.std.specs.Prelude.{◌≡◌, ◌<◌, ◌≤◌};
ghost use Rattle.model.specs.Figures.{longest};
ghost use Rattle.model.specs.Refusal.{is_either};
ghost use Rattle.model.specs.Task.{func, point};
ghost use Rattle.model.specs.Run.{running_place};
ghost use Rattle.tables.specs.Tables.{task_of};
ghost use Rattle.tables.specs.Valid.{Settled};
ghost use Rattle.steps.specs.Frames.{frames_of};
ghost use Rattle.steps.specs.Steps.{Stays, Counts};
ghost use Rattle.moves.specs.Moves.{StepsIn};
ghost use Rattle.turns.specs.Turns.{Runs, Placed, Turns, act_of, act_in, Decodes, Started, StandsAt};

use machine::Machine;
use model::{Eviction, Point, Refusal, Row};
use prices::Price;
use steps::{State, Turned};
use tables::{Header, Span};

// An event of a list: a step with a value, or a preemption by a task that leaves a value in every block.
#[derive(Clone, Copy)]
pub enum Event {
    Step(u32),
    Preempt(u32),
}

// A step with value v at point y of s.
fn step(
    work: &mut [u32],
    h: Header,
    price: Price,
    x: State,
    s: Span,
    y: Point,
    cache: &mut [u32],
    memory: &mut [u32],
    v: u32,
) -> Turned
    requires { StandsAt price work.old h x cache.old memory.old s y }
    ensures { StepsIn price work.old h x y v cache.old memory.old
        result work.new cache.new memory.new × Stays work.old work.new }
{
    match y {
        Point::Load(o) => steps::load_step(x, cache, o),
        Point::Store(o) => steps::store_step(x, cache, o, v),
        Point::Call(g) => moves::call_step(work, h, price, x, cache, memory, g),
        Point::Ensure(k) => moves::ensure_step(work, h, price, x, s, cache, memory, k),
        Point::Goto(q) => steps::goto_step(x, q),
        Point::Either(q, r) => steps::either_step(x, q, r, v),
        Point::Return => steps::return_step(work, x, cache, s.frame),
    }
}

// Function 0 has been entered on a memory of this length, on the core that evicts so. Nothing was moved, and nothing is allowed.
pub fn start(work: &[u32], h: Header, eviction: Eviction, length: usize) -> State
    requires { Settled work.now h × (0 < h.funcs) × (longest (task_of work.now h) 0 ≤ length) }
    ensures { Started eviction work.now h length result }
{
    let s = tables::span_at(work, 0);
    let machine = Machine::fresh(h.stack, s.frame, length).evicting(eviction as usize);
    State {
        depth: 1,
        f: 0,
        p: 0,
        machine,
        moved: 0,
        allowed: 0,
    }
}

// Whether the running frame stands at an either.
fn at_either(work: &[u32], h: Header, x: State) -> bool
    requires { Placed work.now h x × (0 < x.depth) }
    ensures { result ≡ is_either (point (func (task_of work.now h) x.f) x.p) }
{
    let s = tables::span_at(work, x.f);
    points::is_either(tables::point_at(work, s.base + x.p))
}

// The event of this kind and value, which are numbers of the list that C lends, or 22, 20, 21 at event i. The point is looked at only where the value is no choice.
pub fn decode(
    work: &[u32],
    h: Header,
    x: State,
    i: u32,
    kind: u32,
    value: u32,
) -> Result<Event, Refusal>
    requires { Placed work.now h x }
    ensures { Decodes i kind value (running_place (task_of work.now h) (frames_of work.now x)) result }
{
    if x.depth == 0 {
        return Err(Refusal {
            row: Row::AfterFinish,
            place: i,
        });
    }
    match kind {
        0 if 1 < value && at_either(work, h, x) => Err(Refusal {
            row: Row::Choice,
            place: i,
        }),
        0 => Ok(Event::Step(value)),
        1 => Ok(Event::Preempt(value)),
        _ => Err(Refusal {
            row: Row::Kind,
            place: i,
        }),
    }
}

// An event that no row refuses.
pub fn perform(
    work: &mut [u32],
    h: Header,
    price: Price,
    x: State,
    cache: &mut [u32],
    memory: &mut [u32],
    event: Event,
) -> Turned
    requires { Runs price work.old h x cache.old memory.old × (0 < x.depth) × Counts x }
    ensures { Turns price work.old h x cache.old memory.old (act_in event)
        result work.new cache.new memory.new }
{
    let s = tables::span_at(work, x.f);
    match event {
        Event::Step(v) => {
            let y = tables::point_at(work, s.base + x.p);
            step(work, h, price, x, s, y, cache, memory, v)
        }
        Event::Preempt(v) => moves::preempt(work, h, price, x, s, cache, memory, v),
    }
}

// The same for an event by its numbers of the list that C lends: kind 0 is a step, any other a preemption.
pub fn turn(
    work: &mut [u32],
    h: Header,
    price: Price,
    x: State,
    cache: &mut [u32],
    memory: &mut [u32],
    kind: u32,
    value: u32,
) -> Turned
    requires { Runs price work.old h x cache.old memory.old × (0 < x.depth) × Counts x }
    ensures { Turns price work.old h x cache.old memory.old (act_of kind value)
        result work.new cache.new memory.new }
{
    let event = match kind {
        0 => Event::Step(value),
        _ => Event::Preempt(value),
    };
    perform(work, h, price, x, cache, memory, event)
}
