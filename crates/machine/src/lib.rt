// The core with a stack cache, with or without a lazy pointer LP: what each move does to ST, the occupancy, LP, the cache and the memory, and how
// many blocks it moves.
#![tactic(auto)]

ghost use Rattle.std.specs.Prelude.{◌≡◌, List, ℕ, ◌+◌, ◌%◌, ◌-◌, ◌<◌, ◌≤◌, max, length, replicate};
ghost use Rattle.model.specs.Core as core;
ghost use Rattle.model.specs.declared.Eviction.TheVariants.{Eager};
ghost use Rattle.model.specs.Limits.{most_stack};
ghost use Rattle.theory.specs.Cores.{with_eviction};
ghost use Rattle.machine.specs.Moves.{eviction_of, core_of, most_address, OnCache, Good, Does, Preempts, Entered, spilled_area};

use model::Limits;

// Where the stack stands: the stack top ST, its block, how many blocks from ST up are cached, and how many of them lie below LP. The block is kept so
// that no load and no store divides. lazy: the eviction as a number, 0 for an eager core. As the enum, whose padding each step copies, it made runs of
// steps take 2.3 to 3 times as long.
#[derive(Clone, Copy)]
pub struct Machine {
    pub st: usize,
    pub top: usize,
    pub occupancy: usize,
    pub pointer: usize,
    pub lazy: usize,
}

// A machine after a move, and how many blocks moved.
#[derive(Clone, Copy)]
pub struct Moved {
    pub machine: Machine,
    pub blocks: usize,
}

// A machine after a preemption, and how many blocks went out and came back.
#[derive(Clone, Copy)]
pub struct Preempted {
    pub machine: Machine,
    pub out: usize,
    pub back: usize,
}

// ---- the rules on numbers: s blocks in the cache, n of them occupied, m of them to be written back. Most choices are
// written out: with min, max and saturating_sub in their place runs take up to 1.11 times as long.

// How many are written back when they leave the cache, of n that are cached and m below LP.
#[tactic(auto, unfolding(model::specs::Core::written, crate::specs::Moves::eviction_of))]
fn written(lazy: usize, n: usize, m: usize) -> usize
    requires { m ≤ n }
    ensures { (result ≡ core.written (eviction_of lazy) n m) × (result ≤ n) }
{
    if lazy == 0 { n } else { m }
}

fn reserved(s: usize, k: usize, n: usize) -> usize
    requires { n + k ≤ most_address }
    ensures { result ≡ core.reserved s k n }
{
    if s < n + k { s } else { n + k }
}

fn reserve_moves(s: usize, k: usize, n: usize) -> usize
    requires { n ≤ s }
    ensures { result ≡ core.reserve_moves s k n }
{
    if s - n < k { k - (s - n) } else { 0 }
}

fn freed(k: usize, n: usize) -> usize
    ensures { result ≡ core.freed k n }
{
    if k < n { n - k } else { 0 }
}

fn ensured_to(k: usize, n: usize) -> usize
    ensures { result ≡ core.ensured_to k n }
{
    if n < k { k } else { n }
}

fn ensure_moves(k: usize, n: usize) -> usize
    ensures { result ≡ core.ensure_moves k n }
{
    if n < k { k - n } else { 0 }
}

fn saved_from(dead: usize, n: usize) -> usize
    ensures { result ≡ core.saved_from dead n }
{
    if n < dead { n } else { dead }
}

fn resumed(dead: usize, need: usize, n: usize) -> usize
    ensures { result ≡ core.resumed dead need n }
{
    n.min(dead.max(need))
}

fn resume_moves(dead: usize, need: usize, n: usize) -> usize
    ensures { result ≡ core.resume_moves dead need n }
{
    resumed(dead, need, n) - saved_from(dead, n)
}

// ---- numbers between the cache and the memory

// The block of address a in a cache of s.
fn block_of(s: usize, a: usize) -> usize
    requires { 0 < s }
    ensures { (result ≡ a % s) × (result < s) }
{
    a % s
}

// The block o blocks after block b, with no division.
fn block_after(s: usize, b: usize, o: usize) -> usize
    requires { (b < s) × (o ≤ s) × (s ≤ most_stack) }
    ensures { (result ≡ (b + o) % s) × (result < s) }
{
    let n = b + o;
    if n < s { n } else { n - s }
}

// The block o blocks before block b: that of address x, where b is the block of x + o.
fn block_before(s: usize, b: usize, o: usize) -> usize
    requires { (b < s) × (o ≤ s) }
    ensures { ((x : ℕ) → b ≡ (x + o) % s → result ≡ x % s) × (result < s) }
{
    if b < o { b + (s - o) } else { b - o }
}

// The block after block b.
fn block_next(s: usize, b: usize) -> usize
    requires { b < s }
    ensures { (result ≡ (b + 1) % s) × (result < s) }
{
    let n = b + 1;
    if n == s { 0 } else { n }
}

// The numbers of count offsets from `from` up go to the frame area, which begins at ST. ST has block top.
#[tactic(auto, unfolding(crate::specs::Moves::spilled_area))]
fn spill(area: &mut [u32], cache: &[u32], top: usize, from: usize, count: usize)
    requires { (top < length cache.now) × (from ≤ length cache.now) × (length cache.now ≤ most_stack)
        × (from + count ≤ max from (length area.old)) }
    ensures { area.new ≡ spilled_area cache.now area.old top from count }
{
    let s = cache.len();
    let mut block = block_after(s, top, from);
    for i in 0..count {
        area[from + i] = cache[block];
        block = block_next(s, block);
    }
}

// The numbers of count addresses from a up come to their blocks. a has block first.
#[tactic(auto, unfolding(model::specs::Core::filled))]
fn fill(cache: &mut [u32], memory: &[u32], first: usize, a: usize, count: usize)
    requires { (first ≡ a % length cache.old) × (first < length cache.old) × (a + count ≤ max a (length memory.now)) }
    ensures { cache.new ≡ core.filled memory.now cache.old a count }
{
    let s = cache.len();
    let mut block = first;
    for i in 0..count {
        cache[block] = memory[a + i];
        block = block_next(s, block);
    }
}

// Another task leaves v in every block.
pub fn overwrite(cache: &mut [u32], v: u32)
    ensures { cache.new ≡ replicate (length cache.old) v }
{
    cache.fill(v)
}

// ---- the moves

impl Machine {
    // Blocks of a cache.
    pub const MOST_BLOCKS: usize = Limits::STACK as usize;

    // The state after function 0 with this frame has been entered on a memory of this length, with nothing cached before. Nothing moves. It writes back
    // all that leaves the cache.
    pub fn fresh(stack: u32, frame: u32, length: usize) -> Machine
        requires { (0 < stack) × (frame ≤ stack) × (frame ≤ length) }
        ensures { Entered Eager stack frame length result }
    {
        let st = length - frame as usize;
        let cached = reserved(stack as usize, frame as usize, 0);
        Machine {
            st,
            top: block_of(stack as usize, st),
            occupancy: cached,
            pointer: cached,
            lazy: 0,
        }
    }

    // The same, but for which blocks are written back.
    pub fn evicting(self, lazy: usize) -> Machine
        ensures { ((cache memory : List ℕ) → core_of result cache memory ≡ with_eviction (eviction_of lazy) (core_of self cache memory))
            × (result.top ≡ self.top) }
    {
        Machine { lazy, ..self }
    }

    // Enters a frame of k blocks. The highest cached addresses are spilled where the cache is too small.
    #[tactic(auto, unfolding(model::specs::Core::reserve))]
    pub fn reserve(self, cache: &[u32], memory: &mut [u32], k: u32) -> Moved
        requires { OnCache self cache.now × Good (core_of self cache.now memory.old) × (k ≤ self.st) × (k ≤ length cache.now) }
        ensures { Does result cache.now memory.new (core.reserve k (core_of self cache.now memory.old)) }
    {
        let s = cache.len();
        let frame = k as usize;
        let st = self.st - frame;
        let blocks = reserve_moves(s, frame, written(self.lazy, self.occupancy, self.pointer));
        let occupancy = reserved(s, frame, self.occupancy);
        let pointer = reserved(s, frame, self.pointer);
        let top = block_before(s, self.top, frame);
        spill(&mut memory[st..], cache, top, s, blocks);
        let machine = Machine {
            st,
            top,
            occupancy,
            pointer,
            ..self
        };
        Moved { machine, blocks }
    }

    // Leaves a frame of k blocks.
    #[tactic(auto, unfolding(model::specs::Core::free))]
    pub fn free(self, cache: &[u32], k: u32) -> Machine
        requires { OnCache self cache.now × (self.st + k ≤ most_address) × (k ≤ length cache.now) }
        ensures { ((memory : List ℕ) → core_of result cache.now memory ≡ core.free k (core_of self cache.now memory))
            × OnCache result cache.now }
    {
        Machine {
            st: self.st + k as usize,
            top: block_after(cache.len(), self.top, k as usize),
            occupancy: freed(k as usize, self.occupancy),
            pointer: freed(k as usize, self.pointer),
            ..self
        }
    }

    // Fills upward from MT, until at least k blocks are cached. LP stays.
    #[tactic(auto, unfolding(model::specs::Core::ensure))]
    pub fn ensure(self, cache: &mut [u32], memory: &[u32], k: u32) -> Moved
        requires { OnCache self cache.old × Good (core_of self cache.old memory.now) × (self.st + k ≤ length memory.now) }
        ensures { Does result cache.new memory.now (core.ensure k (core_of self cache.old memory.now)) }
    {
        let frame = k as usize;
        let blocks = ensure_moves(frame, self.occupancy);
        let first = block_after(cache.len(), self.top, self.occupancy);
        fill(cache, memory, first, self.st + self.occupancy, blocks);
        let machine = Machine {
            occupancy: ensured_to(frame, self.occupancy),
            ..self
        };
        Moved { machine, blocks }
    }

    // The number at offset o.
    #[tactic(auto, unfolding(model::specs::Core::load))]
    pub fn load(self, cache: &[u32], o: u32) -> u32
        requires { OnCache self cache.now × (o ≤ length cache.now) }
        ensures { (memory : List ℕ) → result ≡ core.load o (core_of self cache.now memory) }
    {
        let at = block_after(cache.len(), self.top, o as usize);
        cache[at]
    }

    // Sets the number at offset o, and lifts LP past it if below.
    #[tactic(auto, unfolding(model::specs::Core::store))]
    pub fn store(self, cache: &mut [u32], o: u32, v: u32) -> Machine
        requires { OnCache self cache.old × (o ≤ length cache.old) }
        ensures { ((memory : List ℕ) → core_of result cache.new memory ≡ core.store o v (core_of self cache.old memory))
            × OnCache result cache.new }
    {
        let block = block_after(cache.len(), self.top, o as usize);
        cache[block] = v;
        Machine {
            pointer: (o as usize + 1).max(self.pointer),
            ..self
        }
    }

    // The first half of a preemption: the blocks from the lowest live offset up go out, on a lazy core those below LP.
    #[tactic(auto, unfolding(model::specs::Core::save))]
    pub fn save(self, cache: &[u32], memory: &mut [u32], dead: u32) -> Moved
        requires { OnCache self cache.now × Good (core_of self cache.now memory.old) }
        ensures { Does result cache.now memory.new (core.save dead (core_of self cache.now memory.old)) }
    {
        let st = self.st;
        let live = saved_from(dead as usize, self.occupancy);
        let blocks = written(self.lazy, self.occupancy, self.pointer).saturating_sub(live);
        spill(&mut memory[st..], cache, self.top, live, blocks);
        Moved {
            machine: self,
            blocks,
        }
    }

    // Its second half: as many of them come back as the point needs, whatever the cache holds. LP is where they begin.
    #[tactic(auto, unfolding(model::specs::Core::resume))]
    pub fn resume(self, cache: &mut [u32], memory: &[u32], dead: u32, need: u32) -> Moved
        requires { OnCache self cache.old × Good (core_of self cache.old memory.now) }
        ensures { Does result cache.new memory.now (core.resume dead need (core_of self cache.old memory.now)) }
    {
        let live = saved_from(dead as usize, self.occupancy);
        let blocks = resume_moves(dead as usize, need as usize, self.occupancy);
        let first = block_after(cache.len(), self.top, live);
        fill(cache, memory, first, self.st + live, blocks);
        let machine = Machine {
            occupancy: resumed(dead as usize, need as usize, self.occupancy),
            pointer: live,
            ..self
        };
        Moved { machine, blocks }
    }

    // Both halves, with one other task between them, which leaves v in every block.
    pub fn preempt(
        self,
        cache: &mut [u32],
        memory: &mut [u32],
        dead: u32,
        need: u32,
        v: u32,
    ) -> Preempted
        requires { OnCache self cache.old × Good (core_of self cache.old memory.old) }
        ensures { Preempts result cache.new memory.new dead need v (core_of self cache.old memory.old) }
    {
        let saved = self.save(cache, memory, dead);
        overwrite(cache, v);
        let back = saved.machine.resume(cache, memory, dead, need);
        Preempted {
            machine: back.machine,
            out: saved.blocks,
            back: back.blocks,
        }
    }
}
