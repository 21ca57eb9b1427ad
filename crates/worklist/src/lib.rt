// The points of one function that are still to visit: a worklist of bytes, at most Limits::POINTS of them and none twice.
#![tactic(auto)]

ghost use Rattle.std.specs.Prelude.{◌≡◌, ◌-◌, ◌<◌, ◌≤◌, length};
ghost use Rattle.tables.specs.Tables.{item};
ghost use Rattle.worklist.specs.Worklist.{worklist_of, added, taken, Distinct, Sound, Absent, Ends, Took};

// The state of a point: no walk has come to it; one has; one has, and the point is in the worklist.
#[derive(Clone, Copy, PartialEq, Eq)]
pub enum Visit {
    Unseen,
    Seen,
    Waiting,
}

// The last of the first points, which are so many.
pub fn last(points: &[u8], count: usize) -> usize
    requires { (0 < count) × (count ≤ length points.now) }
    ensures { result ≡ item points.now (count - 1) }
{
    points[count - 1] as usize
}

// A stack with room for N points. N is Limits::POINTS: what put and take ask for (Absent, Sound) holds at no other.
#[derive(Drop)]
pub struct Worklist<const N: usize> {
    pub points: [u8; N],
    pub count: usize,
}

impl<const N: usize> Worklist<N> {
    pub fn new() -> Self
        ensures { (length result.points ≡ N) × (result.count ≡ 0) }
    {
        Worklist {
            points: [0; N],
            count: 0,
        }
    }

    // Point q, which does not wait, is put at its end.
    pub fn put(&mut self, state: &mut [Visit], q: usize)
        requires { Absent q (worklist_of state.old self.old.points self.old.count) }
        ensures { (worklist_of state.new self.new.points self.new.count ≡ added q (worklist_of state.old self.old.points self.old.count))
            × Distinct (worklist_of state.new self.new.points self.new.count) }
    {
        state[q] = Visit::Waiting;
        self.points[self.count] = q as u8;
        self.count += 1;
    }

    // Its last point, which the caller knows to be q, is taken with no load, and waits no longer.
    pub fn take_last(&mut self, state: &mut [Visit], q: usize)
        requires { Ends q (worklist_of state.old self.old.points self.old.count) }
        ensures { (worklist_of state.new self.new.points self.new.count ≡ taken (worklist_of state.old self.old.points self.old.count))
            × Distinct (worklist_of state.new self.new.points self.new.count) }
    {
        self.count -= 1;
        state[q] = Visit::Seen;
    }

    // Its last point, which is taken, and waits no longer.
    pub fn take(&mut self, state: &mut [Visit]) -> Option<usize>
        requires { Sound (worklist_of state.old self.old.points self.old.count) }
        ensures { Took (worklist_of state.old self.old.points self.old.count) (worklist_of state.new self.new.points self.new.count) result }
    {
        if self.count == 0 {
            return None;
        }
        let p = last(&self.points, self.count);
        self.count -= 1;
        state[p] = Visit::Seen;
        Some(p)
    }
}
