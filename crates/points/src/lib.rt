// Tests on a point, and the function that it calls. Each is a definition of the model.
#![tactic(auto)]

ghost use Rattle.std.specs.Prelude.{◌≡◌, MatchOption};
ghost use Rattle.std.proofs.Math.Option.{none, some};
ghost use Rattle.model.specs.Refusal.{is_either};
ghost use Rattle.model.specs.Task.{offset_fits};
ghost use Rattle.model.specs.Walk.{called, ensured, present};

use model::Point;

pub fn is_call(x: Point) -> bool
    ensures { result ≡ present (called x) }
{
    matches!(x, Point::Call(_))
}

pub fn is_ensure(x: Point) -> bool
    ensures { result ≡ present (ensured x) }
{
    matches!(x, Point::Ensure(_))
}

pub fn is_either(x: Point) -> bool
    ensures { result ≡ is_either x }
{
    matches!(x, Point::Either(_, _))
}

// The function that a point calls.
pub fn callee_of(x: Point) -> Option<usize>
    ensures { MatchOption result (called x ≡ none) (λ g. called x ≡ some g) }
{
    match x {
        Point::Call(g) => Some(g as usize),
        _ => None,
    }
}

// The offset of a load or store is below the frame k.
pub fn offset_fits(k: u32, x: Point) -> bool
    ensures { result ≡ offset_fits k x }
{
    match x {
        Point::Load(o) | Point::Store(o) => o < k,
        _ => true,
    }
}
