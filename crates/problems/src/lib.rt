// The figures within a function of the task in the tables, each read off the sets that a kernel finds for one gen/kill problem.
#![tactic(auto)]

ghost use Rattle.std.specs.Prelude.{◌≡◌, ℕ, ◌≤◌, length, replicate};
ghost use Rattle.model.specs.Limits.{most_stack, most_points};
ghost use Rattle.model.specs.Task.{Task};
ghost use Rattle.model.specs.Figures as figure;
ghost use Rattle.tables.specs.Tables.{item, func_in};
ghost use Rattle.tables.specs.Valid.{Kept};
ghost use Rattle.problems.specs.Problems.{Filled, Gives, Takes, Blocks, Answered, lowest_level, Room, Used, KeptIn, CutIn, EachReached};

use effects::Problem;
use flow::Flow;
use model::Limits;
pub use tables::FitFunc;

// A number for each point of a function.
pub type Numbers = [u32; Limits::POINTS];

// What the problems of a task are solved in: for each point of a function what it gives and takes, its set, and whether a walk reaches it. The functions
// below take slices of it, as long as the function at least, so that they ask no more of other callers.
#[derive(Drop)]
pub struct Scratch {
    pub gens: [u64; Limits::POINTS],
    pub kills: [u64; Limits::POINTS],
    pub sets: [u64; Limits::POINTS],
    pub state: [u8; Limits::POINTS],
}

impl Scratch {
    // Nothing is given, taken or seen yet.
    pub fn new() -> Scratch
        ensures gens { result.gens ≡ replicate most_points 0 }
        ensures kills { result.kills ≡ replicate most_points 0 }
        ensures sets { result.sets ≡ replicate most_points 0 }
        ensures state { result.state ≡ replicate most_points 0 }
    {
        Scratch {
            gens: [0; Limits::POINTS],
            kills: [0; Limits::POINTS],
            sets: [0; Limits::POINTS],
            state: [0; Limits::POINTS],
        }
    }
}

// The gens and kills of the points of a function. A problem without a column is lent an empty one. Inlined for the same reason as solve.
#[inline(always)]
pub fn fill(problem: Problem, func: FitFunc, column: &[u32], gens: &mut [u64], kills: &mut [u64])
    requires { (func.span.size ≤ length gens.old) × (func.span.size ≤ length kills.old) × Blocks func.span.size column.now }
    ensures { Filled (Gives problem func.entry.work.now func.entry.span column.now) func.entry.span.size gens.old gens.new
        × Filled (Takes problem func.entry.work.now func.entry.span column.now) func.entry.span.size kills.old kills.new }
{
    for p in 0..func.span.size {
        let e = effects::effect_of(func.point(p));
        let a = column.get(p).copied().unwrap_or(0);
        gens[p] = effects::gens_of(problem, e, func.span.frame, a);
        kills[p] = effects::kills_of(problem, e, a);
    }
}

// The number that is read off each set.
fn each_set<F: Fn(u64) -> u32>(sets: &[u64], out: &mut [u32], number: F)
    requires { F.IsAlwaysCallable number × (length sets.now ≤ length out.old) }
    ensures { Filled (λ p v. F.post number (item sets.now p) v) (length sets.now) out.old out.new }
{
    for (p, m) in sets.iter().enumerate() {
        out[p] = number(*m);
    }
}

// The sets of the points of a function, for a problem that goes backward. Inlined, each problem has a loop of its own, with no choice in it.
#[inline(always)]
fn solve(
    problem: Problem,
    func: FitFunc,
    column: &[u32],
    gens: &mut [u64],
    kills: &mut [u64],
    sets: &mut [u64],
)
    requires { Blocks func.span.size column.now × Room func.span.size gens.old kills.old sets.old }
    ensures { Answered problem (func_in func.entry.work.now func.entry.span) column.now sets.new
        × Used func.entry.span.size gens.old gens.new kills.old kills.new sets.old sets.new }
{
    fill(problem, func, column, gens, kills);
    backward::backward(Flow::new(func.work, func.span, gens, kills), sets);
}

// The figure dead of each point of a function.
pub fn dead_points(
    func: FitFunc,
    gens: &mut [u64],
    kills: &mut [u64],
    sets: &mut [u64],
    dead: &mut [u32],
)
    requires { Room func.span.size gens.old kills.old sets.old × (func.span.size ≤ length dead.old) }
    ensures { Filled (λ p v. v ≡ figure.dead (func_in func.entry.work.now func.entry.span) p) func.entry.span.size dead.old dead.new
        × Used func.entry.span.size gens.old gens.new kills.old kills.new sets.old sets.new }
{
    let frame = func.span.frame;
    solve(Problem::Live, func, &[], gens, kills, sets);
    each_set(&sets[..func.span.size], dead, |m| bits::lowest_of(m, frame));
}

// The figure need of each point of a function.
pub fn need_points(
    func: FitFunc,
    gens: &mut [u64],
    kills: &mut [u64],
    sets: &mut [u64],
    need: &mut [u32],
)
    requires { Room func.span.size gens.old kills.old sets.old × (func.span.size ≤ length need.old) }
    ensures { Filled (λ p v. v ≡ figure.need (func_in func.entry.work.now func.entry.span) p) func.entry.span.size need.old need.new
        × Used func.entry.span.size gens.old gens.new kills.old kills.new sets.old sets.new }
{
    solve(Problem::Touched, func, &[], gens, kills, sets);
    each_set(&sets[..func.span.size], need, bits::top_of);
}

// The lowest level that no call passes on some walk from the entry of a function to a return, and BITS where no walk comes to a return; levels has the
// level of the callee of each call.
pub fn lowest_level(
    func: FitFunc,
    levels: &[u32],
    gens: &mut [u64],
    kills: &mut [u64],
    sets: &mut [u64],
) -> u32
    requires { Blocks func.span.size levels.now × Room func.span.size gens.old kills.old sets.old }
    ensures { (result ≡ lowest_level (func_in func.entry.work.now func.entry.span) levels.now)
        × Used func.entry.span.size gens.old gens.new kills.old kills.new sets.old sets.new }
{
    solve(Problem::CallLevels, func, levels, gens, kills, sets);
    bits::lowest_of(sets[0], u64::BITS)
}

// The largest part of the frame that is kept at a first ensure on walks from each point of a function; kept has what is kept at each ensure.
pub fn next_points(
    func: FitFunc,
    kept: &[u32],
    gens: &mut [u64],
    kills: &mut [u64],
    sets: &mut [u64],
    next: &mut [u32],
)
    requires { Blocks func.span.size kept.now × Room func.span.size gens.old kills.old sets.old × (func.span.size ≤ length next.old) }
    ensures { Filled (λ p v. (t : Task) (g : ℕ) → KeptIn func.entry.work.now func.entry.span kept.now t g → v ≡ figure.kept_next t g p)
        func.entry.span.size next.old next.new
        × Used func.entry.span.size gens.old gens.new kills.old kills.new sets.old sets.new }
{
    solve(Problem::FirstEnsure, func, kept, gens, kills, sets);
    each_set(&sets[..func.span.size], next, bits::top_of);
}

// The largest occupancy with which a walk from point 0 arrives at each point of a function that starts with the value start; cuts has what the
// callee of each call leaves of the cache.
pub fn high_points(
    func: FitFunc,
    start: u32,
    cuts: &[u32],
    gens: &mut [u64],
    kills: &mut [u64],
    sets: &mut [u64],
    state: &mut [u8],
    high: &mut [u32],
)
    requires { Blocks func.span.size cuts.now × (start ≤ most_stack) × EachReached func.work.now func.span
        × Room func.span.size gens.old kills.old sets.old × (func.span.size ≤ length state.old) × (func.span.size ≤ length high.old) }
    ensures { Filled (λ p v. (t : Task) (g e : ℕ) → CutIn func.entry.work.now func.entry.span start cuts.now t g e → v ≡ figure.high_from t g e p)
        func.entry.span.size high.old high.new
        × Used func.entry.span.size gens.old gens.new kills.old kills.new sets.old sets.new
        × Kept func.entry.span.size state.old state.new }
{
    fill(Problem::Occupied, func, cuts, gens, kills);
    let flow = Flow::new(func.work, func.span, gens, kills);
    forward::forward(flow, bits::low_bits(start), sets, state);
    each_set(&sets[..func.span.size], high, bits::top_of);
}
