// What the two data-flow kernels share: what they are given, where a point leads, and what leaves it.
#![tactic(auto)]

ghost use Rattle.std.specs.Prelude.{◌≡◌, ℕ, ◌^◌, ◌<◌};
ghost use Rattle.bits.specs.Bits.{set_bits, transfer};
ghost use Rattle.model.specs.Limits.{most_in_all};
ghost use Rattle.model.specs.Walk.{leads_from, leads};
ghost use Rattle.tables.specs.Tables.{func_in, item};
ghost use Rattle.tables.specs.Valid.{Lies};
ghost use Rattle.flow.specs.Flow.{Given, targets};

use model::Point;
use tables::Span;

// The points to which a point leads: none, one or two, so three cases and no Option.
#[derive(Clone, Copy)]
pub enum Next {
    Nowhere,
    To(usize),
    Fork(usize, usize),
}

fn next_of(p: usize, x: Point) -> Next
    requires { p < most_in_all }
    ensures { targets result ≡ leads_from p x }
{
    match x {
        Point::Load(_) | Point::Store(_) | Point::Call(_) | Point::Ensure(_) => Next::To(p + 1),
        Point::Goto(q) => Next::To(q as usize),
        Point::Either(q, r) => Next::Fork(q as usize, r as usize),
        Point::Return => Next::Nowhere,
    }
}

// Where point p of a function leads. One comparison tells a load or a store, which is quicker than the choice of next_of.
pub fn next_at(work: &[u32], s: Span, p: usize) -> Next
    requires { Lies work.now s × (p < s.size) }
    ensures { targets result ≡ leads (func_in work.now s) p }
{
    let i = s.base + p;
    if tables::access_at(work, i) {
        return Next::To(p + 1);
    }
    next_of(p, tables::point_at(work, i))
}

// A function in the tables whose walks a kernel can follow, and for each of its points the bits that it generates and those that it kills.
// In words: each number of the kills is below 2^64, which a proof does not have of a slice in a struct.
#[derive(Clone, Copy)]
pub struct Flow<'a> {
    pub work: &'a [u32],
    pub span: Span,
    pub gens: &'a [u64],
    pub kills: &'a [u64],
    ghost given: { Given work.now span gens.now kills.now },
    ghost words: { (p : ℕ) → item kills.now p < 2 ^ set_bits },
}

impl<'a> Flow<'a> {
    pub fn new(work: &'a [u32], span: Span, gens: &'a [u64], kills: &'a [u64]) -> Self
        requires { Given work.now span gens.now kills.now }
        ensures { (result.work.now ≡ work.now) × (result.span ≡ span) × (result.gens.now ≡ gens.now) × (result.kills.now ≡ kills.now) }
    {
        Flow {
            work,
            span,
            gens,
            kills,
        }
    }

    // Where point p leads.
    pub fn next(self, p: usize) -> Next
        requires { p < self.span.size }
        ensures { targets result ≡ leads (func_in self.entry.work.now self.entry.span) p }
    {
        next_at(self.work, self.span, p)
    }

    // What leaves point p, to which the set m comes.
    pub fn transfer(self, p: usize, m: u64) -> u64
        requires { p < self.span.size }
        ensures { result ≡ transfer m (item self.entry.kills.now p) (item self.entry.gens.now p) }
    {
        bits::transfer_of(m, self.kills[p], self.gens[p])
    }
}
