// The functions in the order of their d, in a column: a function finds its level among those behind it, and a level gives the largest d up to it.
// The column is written between two reads, so the working space is lent and no view of it is kept.
#![tactic(auto)]

ghost use Rattle.std.specs.Prelude.{if◌then◌else◌, ◌≡◌, suc, ◌+◌, ◌≤◌, ltb};
ghost use Rattle.model.specs.Limits.{most_funcs};
ghost use Rattle.levels.specs.Levels.{level_among, largest_within, shortest_in, level_in, Room, SmallLevels, Lifted, Inserted};

use columns::Columns;

// One level more where a is below b.
fn raised(level: u32, a: u32, b: u32) -> u32
    requires { level ≤ most_funcs }
    ensures { result ≡ (if ltb a b then suc level else level) }
{
    if a < b { level + 1 } else { level }
}

// The level of the displacement v among the functions from m on and below n, from the last to the first.
fn level_among(work: &[u32], m: usize, n: usize, v: u32) -> u32
    requires { Room m n work.now }
    ensures { result ≡ level_among (shortest_in work.now) m n v }
{
    let mut level: u32 = 1;
    for g in (m..n).rev() {
        level = raised(level, work[Columns::SHORTEST + g], v);
    }
    level
}

// Lifts the functions from m on and below n that displace more than v by one level.
fn lift_levels(work: &mut [u32], m: usize, n: usize, v: u32)
    requires { Room m n work.old × SmallLevels m n work.old }
    ensures { Lifted m n v work.old work.new }
{
    for g in m..n {
        let d = work[Columns::SHORTEST + g];
        work[Columns::LEVEL + g] = raised(work[Columns::LEVEL + g], v, d);
    }
}

// Gives function f, which has its d, its level among the functions behind it.
pub fn insert(work: &mut [u32], f: usize, n: usize)
    requires { Room (f + 1) n work.old × SmallLevels (f + 1) n work.old }
    ensures { Inserted f n work.old work.new }
{
    let d = work[Columns::SHORTEST + f];
    let level = level_among(work, f + 1, n, d);
    lift_levels(work, f + 1, n, d);
    work[Columns::LEVEL + f] = level;
}

// The largest d of the functions from m on and below n whose level is at most this one, from the last to the first; 0 where there is none.
pub fn largest_within(work: &[u32], m: usize, n: usize, level: u32) -> u32
    requires { Room m n work.now }
    ensures { result ≡ largest_within (level_in work.now) (shortest_in work.now) m n level }
{
    let mut most: u32 = 0;
    for g in (m..n).rev() {
        if work[Columns::LEVEL + g] <= level {
            most = most.max(work[Columns::SHORTEST + g]);
        }
    }
    most
}
