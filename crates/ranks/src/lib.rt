// The ten highest ranks of those met so far, from the highest on. A rank is a number by which something is put in order.
#![tactic(auto)]

ghost use Rattle.std.specs.Prelude.{◌≡◌, [], ◌∷◌, length, replicate};
ghost use Rattle.model.specs.Limits.{most_dearest};
ghost use Rattle.ranks.specs.Ranks.{Falling, falling_prop, sunk, best};

use model::Limits;

// The ten highest ranks, from the highest on. Before any is met they are 0.
#[derive(Clone, Copy)]
pub struct Ranks {
    pub places: [u64; Limits::DEAREST],
    pub ghost ten: { length places ≡ most_dearest },
    pub ghost falling: { Falling places } by { falling_prop places },
}

impl Ranks {
    pub fn none() -> Ranks
        ensures { result.places ≡ replicate most_dearest 0 }
    {
        Ranks {
            places: [0; Limits::DEAREST],
        }
    }

    // Takes one more rank in. Most are no higher than the last one, and change nothing.
    pub fn take_in(&mut self, rank: u64)
        ensures { self.new.places ≡ best self.old.places (rank ∷ []) }
    {
        if rank <= self.places[Limits::DEAREST - 1] {
            return;
        }
        sink(&mut self.places, rank);
    }
}

// Each place keeps the higher of its rank and of the one that comes to it; the lower goes on to the next place, and past the last one it is dropped.
fn sink(places: &mut [u64], rank: u64)
    ensures { places.new ≡ sunk rank places.old }
{
    let mut sinking = rank;
    for place in places.iter_mut() {
        let here = *place;
        *place = here.max(sinking);
        sinking = here.min(sinking);
    }
}
