// The gen/kill problems as data: what a point gives and what it takes, for each problem.
#![tactic(auto)]

ghost use Rattle.std.specs.Prelude.{if◌then◌else◌, ◌≡◌, ℕ, suc, ◌≤◌, T, eqb};
ghost use Rattle.model.specs.declared.Point.{Point as PointOf};
ghost use Rattle.model.specs.Limits.{most_stack};
ghost use Rattle.model.specs.Task.{offset_fits};
ghost use Rattle.bits.specs.Bits.{Marks};
ghost use Rattle.effects.specs.Effects.{gives, takes, HasEffect};

use model::Point;

// A problem over sets of 64 bits. specs/Effects.antt says what a point gives and takes. The first four go backward from each point, the last
// one forward from point 0. Three have a column, a number for each point. An enum: gives and takes are defined by cases of it, and a trait would only spread
// these ten lines over five types.
#[derive(Clone, Copy)]
pub enum Problem {
    // Offsets that a walk loads with no store of them before.
    Live,
    // Offsets that a walk loads or stores before any ensure.
    Touched,
    // Levels that no call passes on some walk to a return: level k is bit k. A return gives every level, a call takes those below the level of its callee,
    // which the column has. The callees have levels from 1 on, so bit 0 stands for no call.
    CallLevels,
    // What is kept at the first ensures of walks: k blocks are bit k - 1. The column has what is kept at each ensure.
    FirstEnsure,
    // Occupancy that walks bring: k blocks are the bits below k. The column has what the callee of each call leaves of the cache.
    Occupied,
}

// What a point does: the offset that it loads and the offset that it stores, as sets; whether it is a call, an ensure, a return.
#[derive(Clone, Copy, Default)]
pub struct Effect {
    pub loaded: u64,
    pub stored: u64,
    pub called: bool,
    pub ensured: bool,
    pub returned: bool,
}

pub fn effect_of(x: Point) -> Effect
    requires { T (offset_fits most_stack x) }
    ensures { HasEffect x result }
{
    match x {
        Point::Load(o) => Effect {
            loaded: bits::single_bit(o),
            ..Effect::default()
        },
        Point::Store(o) => Effect {
            stored: bits::single_bit(o),
            ..Effect::default()
        },
        Point::Call(_) => Effect {
            called: true,
            ..Effect::default()
        },
        Point::Ensure(_) => Effect {
            ensured: true,
            ..Effect::default()
        },
        Point::Goto(_) | Point::Either(_, _) => Effect::default(),
        Point::Return => Effect {
            returned: true,
            ..Effect::default()
        },
    }
}

// The set m where the test holds, and no bit where it fails.
fn only_if(test: bool, m: u64) -> u64
    ensures { result ≡ (if test then m else 0) }
{
    if test { m } else { 0 }
}

// The set that stands for k blocks kept.
fn kept_bit(k: u32) -> u64
    requires { k ≤ most_stack }
    ensures { Marks (λ j. eqb (suc j) k) result }
{
    if k == 0 { 0 } else { bits::single_bit(k - 1) }
}

// What a point with the effect e gives, in a function with this frame, where the column has the number a.
pub fn gens_of(problem: Problem, e: Effect, frame: u32, a: u32) -> u64
    requires { (frame ≤ most_stack) × (a ≤ most_stack) }
    ensures { (x : PointOf) → HasEffect x e → Marks (gives problem frame a x) result }
{
    match problem {
        Problem::Live => e.loaded,
        Problem::Touched => bits::union_of(e.loaded, e.stored),
        Problem::CallLevels => only_if(e.returned, u64::MAX),
        Problem::FirstEnsure => only_if(e.ensured, kept_bit(a)),
        Problem::Occupied => only_if(e.ensured, bits::low_bits(frame)),
    }
}

// What such a point takes.
pub fn kills_of(problem: Problem, e: Effect, a: u32) -> u64
    requires { a ≤ most_stack }
    ensures { (x : PointOf) (k : ℕ) → HasEffect x e → Marks (takes problem k a x) result }
{
    match problem {
        Problem::Live => e.stored,
        Problem::Touched => only_if(e.ensured, u64::MAX),
        Problem::CallLevels => only_if(e.called, bits::low_bits(a)),
        Problem::FirstEnsure => only_if(e.ensured, u64::MAX),
        Problem::Occupied => only_if(e.called, !bits::low_bits(a)),
    }
}
