// The state of a run, and the steps that move nothing: a load, a store, a goto, an either and a return. The running frame is by value and its callers
// are in the working space, behind the bounds, so that only a call and a return touch them.
#![tactic(auto)]

ghost use Rattle.std.specs.Prelude.{◌≡◌, List, ℕ, ◌-◌, ◌<◌, ◌≤◌, length};
ghost use Rattle.model.specs.declared.Point.TheVariants.{Load, Store, Goto, Either, Return};
ghost use Rattle.model.specs.Limits.{most_funcs, most_points};
ghost use Rattle.model.specs.Task.{Task, func};
ghost use Rattle.machine.specs.Moves.{OnCache};
ghost use Rattle.steps.specs.Frames.{frames_end, places_in, put_caller, frames_of, plain_turn};
ghost use Rattle.steps.specs.Steps.{PlainStep, Reaches, Leaves};

use machine::Machine;
use tables::Frames;

// How many frames there are, function and point of the running one, where the stack stands, and what was moved and what the sheet allows so far: both
// as prices. A finished task has no frames. A step that moves nothing touches neither total.
#[derive(Clone, Copy)]
pub struct State {
    pub depth: usize,
    pub f: usize,
    pub p: usize,
    pub machine: Machine,
    pub moved: u64,
    pub allowed: u64,
}

// A state after an event, and its answer.
#[derive(Clone, Copy)]
pub struct Turned {
    pub state: State,
    pub answer: u32,
}

// ---- the callers in the working space

// Function and point of caller n.
pub fn put_caller(work: &mut [u32], n: usize, f: usize, p: usize)
    requires { (frames_end ≤ length work.old) × (n < most_funcs) × (f < most_funcs) × (p ≤ most_points) }
    ensures { work.new ≡ put_caller work.old n f p }
{
    let at = Frames::AT + 2 * n;
    work[at] = f as u32;
    work[at + 1] = p as u32;
}

// The last caller of the running frame runs, and a task with none has finished.
fn caller_runs(work: &[u32], x: State) -> State
    requires { (frames_end ≤ length work.now) × (0 < x.depth) × (x.depth ≤ most_funcs) }
    ensures { (frames_of work.now result ≡ places_in work.now (x.depth - 1)) × (result.machine ≡ x.machine) × (result.moved ≡ x.moved)
        × (result.allowed ≡ x.allowed) }
{
    let depth = x.depth - 1;
    if depth == 0 {
        return State {
            depth,
            f: 0,
            p: 0,
            ..x
        };
    }
    let at = Frames::AT + 2 * (depth - 1);
    State {
        depth,
        f: work[at] as usize,
        p: work[at + 1] as usize,
        ..x
    }
}

// ---- the steps that move nothing

// On at point p of the running frame. Nothing moves, and nothing is allowed.
fn onwards(x: State, p: usize, answer: u32) -> Turned
    ensures { result ≡ plain_turn x p answer }
{
    Turned {
        state: State { p, ..x },
        answer,
    }
}

pub fn load_step(x: State, cache: &[u32], o: u32) -> Turned
    requires { Reaches x cache.now o }
    ensures { (t : Task) (v : ℕ) (w memory : List ℕ) → PlainStep t x (Load o) v w cache.now memory result w
        cache.now memory }
{
    onwards(x, x.p + 1, x.machine.load(cache, o))
}

pub fn store_step(x: State, cache: &mut [u32], o: u32, v: u32) -> Turned
    requires { Reaches x cache.old o }
    ensures { (t : Task) (w memory : List ℕ) → PlainStep t x (Store o) v w cache.old memory result w
        cache.new memory }
{
    let machine = x.machine.store(cache, o, v);
    onwards(State { machine, ..x }, x.p + 1, 0)
}

pub fn goto_step(x: State, q: u32) -> Turned
    requires { 0 < x.depth }
    ensures { (t : Task) (v : ℕ) (w cache memory : List ℕ) → OnCache x.machine cache →
        PlainStep t x (Goto q) v w cache memory result w cache memory }
{
    onwards(x, q as usize, 0)
}

pub fn either_step(x: State, q: u32, r: u32, v: u32) -> Turned
    requires { 0 < x.depth }
    ensures { (t : Task) (w cache memory : List ℕ) → OnCache x.machine cache →
        PlainStep t x (Either q r) v w cache memory result w cache memory }
{
    let target = if v == 0 { q } else { r };
    onwards(x, target as usize, 0)
}

// The frame of the running function is left, and its caller runs.
pub fn return_step(work: &[u32], x: State, cache: &[u32], frame: u32) -> Turned
    requires { Leaves work.now x cache.now frame }
    ensures { (t : Task) (v : ℕ) (memory : List ℕ) → (func t x.f).frame ≡ frame →
        PlainStep t x Return v work.now cache.now memory result work.now cache.now memory }
{
    let machine = x.machine.free(cache, frame);
    let state = caller_runs(work, State { machine, ..x });
    Turned { state, answer: 0 }
}
