// D and d of every function of the task in the tables, from the last function to the first. d comes from the walks of a function: the functions behind it
// have levels in the order of their d, and the levels are the bits of one gen/kill problem.
#![tactic(auto)]

ghost use Rattle.std.specs.Prelude.{if◌then◌else◌, ◌≡◌, ℕ, ◌+◌, ◌<◌, ◌≤◌, ltb, length};
ghost use Rattle.model.specs.Figures.{shortest};
ghost use Rattle.bits.specs.Bits.{set_bits};
ghost use Rattle.tables.specs.Tables.{span_at, task_of};
ghost use Rattle.tables.specs.Valid.{Lies};
ghost use Rattle.columns.specs.Columns.{columns_end, OnlyColumns};
ghost use Rattle.columns.specs.Values.{CallFits};
ghost use Rattle.columns.specs.Displaced.{Ready, Displacing};
ghost use Rattle.displace.specs.Range.{widened, RangeOf};
ghost use Rattle.levels.specs.Levels.{largest_within, shortest_in, level_in, Room};
ghost use Rattle.displace.specs.Ordered.{Ordered};

use columns::{Columns, FuncColumns};
use model::Limits;
use problems::{FitFunc, Numbers};
use tables::{Header, Span};

// The largest D and the smallest d of the functions that a function calls.
#[derive(Clone, Copy)]
struct CalleeRange {
    most: u32,
    least: u32,
}

// The range with one callee more, where there is one already.
fn widened(range: Option<CalleeRange>, longest: u32, shortest: u32) -> CalleeRange
    ensures { result ≡ widened range longest shortest }
{
    match range {
        Some(b) => CalleeRange {
            most: b.most.max(longest),
            least: b.least.min(shortest),
        },
        None => CalleeRange {
            most: longest,
            least: shortest,
        },
    }
}

// The range of the functions that s calls, from its last point to its first; none where it calls nothing.
fn callee_range(work: &[u32], s: Span) -> Option<CalleeRange>
    requires { Lies work.now s × (columns_end ≤ length work.now) × ((p : ℕ) → p < s.size → CallFits work.now s p) }
    ensures { RangeOf work.now s result }
{
    let mut range = None;
    for p in (0..s.size).rev() {
        if let Some(g) = columns::func_called_at(work, s, p) {
            range = Some(widened(
                range,
                work[Columns::LONGEST + g],
                work[Columns::SHORTEST + g],
            ));
        }
    }
    range
}

// What the calls of a function displace at least: by the lowest level of its walks to a return, and least where no walk comes to a return.
fn called_least(work: &[u32], m: usize, n: usize, level: u32, least: u32) -> u32
    requires { Room m n work.now }
    ensures { result ≡ (if ltb level set_bits
        then largest_within (level_in work.now) (shortest_in work.now) m n level
        else least) }
{
    if level < u64::BITS {
        levels::largest_within(work, m, n, level)
    } else {
        least
    }
}

// d of function f, which is s, with the range of its callees; the functions behind it have theirs. One that calls nothing has no walk to look for.
fn shortest_of(
    work: &[u32],
    h: Header,
    f: usize,
    s: Span,
    range: Option<CalleeRange>,
    levels: &mut Numbers,
    gens: &mut [u64; Limits::POINTS],
    kills: &mut [u64; Limits::POINTS],
    sets: &mut [u64; Limits::POINTS],
) -> u32
    requires { Ordered work.now h (f + 1) × (f < h.funcs) × (s ≡ span_at work.now f) × RangeOf work.now s range }
    ensures { result ≡ shortest (task_of work.now h) f }
{
    let Some(b) = range else {
        return s.frame;
    };
    let points = FuncColumns { work, span: s };
    columns::each_point(s, levels, |p| points.level(p));
    let level = problems::lowest_level(FitFunc { work, span: s }, levels, gens, kills, sets);
    s.frame + called_least(work, f + 1, h.funcs, level, b.least)
}

// D, d and the level of function f; the functions behind it have theirs.
fn displace(
    work: &mut [u32],
    h: Header,
    f: usize,
    levels: &mut Numbers,
    gens: &mut [u64; Limits::POINTS],
    kills: &mut [u64; Limits::POINTS],
    sets: &mut [u64; Limits::POINTS],
)
    requires { Ordered work.old h (f + 1) × (f < h.funcs) }
    ensures { Ordered work.new h f × OnlyColumns work.old work.new }
{
    let s = tables::span_at(work, f);
    let range = callee_range(work, s);
    let d = shortest_of(work, h, f, s, range, levels, gens, kills, sets);
    work[Columns::LONGEST + f] = s.frame + range.map_or(0, |b| b.most);
    work[Columns::SHORTEST + f] = d;
    levels::insert(work, f, h.funcs);
}

// D and d of every function, from the last to the first: calls lead to later functions. It is lent arrays, and not a Scratch: it has no use for states.
pub fn displacements(
    work: &mut [u32],
    h: Header,
    levels: &mut Numbers,
    gens: &mut [u64; Limits::POINTS],
    kills: &mut [u64; Limits::POINTS],
    sets: &mut [u64; Limits::POINTS],
)
    requires { Ready work.old h }
    ensures { Displacing work.new h 0 × OnlyColumns work.old work.new }
{
    for f in (0..h.funcs).rev() {
        displace(work, h, f, levels, gens, kills, sets);
    }
}
