// A point and the set of the offsets that some walk may not have stored before it.
ghost use Rattle.std.specs.Prelude.{◌≡◌, T};
ghost use Rattle.bits.specs.Bits.{Marks};
ghost use Rattle.model.specs.Limits.{most_stack};
ghost use Rattle.model.specs.Task.{offset_fits};
ghost use Rattle.model.specs.Walk.{loaded, stored, is};
ghost use Rattle.reach.specs.Reach.{has};

use model::Point;

// The set has the offset that a point loads.
pub fn has_load(set: u64, x: Point) -> bool
    requires { T (offset_fits most_stack x) }
    ensures { result ≡ has set (loaded x) }
{
    if let Point::Load(o) = x {
        return bits::bit_of(set, o) == 1;
    }
    false
}

// What a point kills: the offset that it stores.
pub fn kill_of(x: Point) -> u64
    requires { T (offset_fits most_stack x) }
    ensures { Marks (λ j. is j (stored x)) result }
{
    if let Point::Store(o) = x {
        return bits::single_bit(o);
    }
    0
}
