// The columns of figures behind the tables: the numbers that the points of a function are given from the tables and the columns,
// and the writes into one column.
#![tactic(auto)]

ghost use Rattle.std.specs.Prelude.{◌≡◌, ℕ, ◌+◌, ◌<◌, ◌≤◌, length, MatchOption};
ghost use Rattle.std.proofs.Math.Option.{none, some};
ghost use Rattle.model.specs.Limits.{most_stack, most_funcs, most_in_all};
ghost use Rattle.tables.specs.Tables.{item};
ghost use Rattle.tables.specs.Valid.{Lies};
ghost use Rattle.prices.specs.Prices.{Small};
ghost use Rattle.problems.specs.Problems.{Filled};
ghost use Rattle.columns.specs.Columns.{columns_end, high_column, entry_column, chain_column, Funcs, Changed};
ghost use Rattle.columns.specs.Values.{most_chain, callee_at, func_called_at, ensure_at, filled_at, kept_at, cut_at, level_at, chained_at, Put, Raised};

use model::Limits;
use prices::Price;
pub use tables::Columns;
use tables::{Header, Span};

// The function that point p of s calls.
pub fn callee_at(work: &[u32], s: Span, p: usize) -> Option<usize>
    requires { Lies work.now s × (p < s.size) }
    ensures { MatchOption result (callee_at work.now s p ≡ none) (λ g. callee_at work.now s p ≡ some g) }
{
    points::callee_of(tables::point_at(work, s.base + p))
}

// The same, where its number is one that a function can have: the columns have a number for each of these.
pub fn func_called_at(work: &[u32], s: Span, p: usize) -> Option<usize>
    requires { Lies work.now s × (p < s.size) }
    ensures { MatchOption result (func_called_at work.now s p ≡ none) (λ g. (func_called_at work.now s p ≡ some g) × (g < most_funcs)) }
{
    match callee_at(work, s, p) {
        Some(g) if g < Limits::FUNCS => Some(g),
        _ => None,
    }
}

// What a column of the points has for point p of s.
pub fn figure_at(work: &[u32], column: usize, s: Span, p: usize) -> u32
    requires { Lies work.now s × (p < s.size) × (column + most_in_all ≤ length work.now) }
    ensures { result ≡ item work.now (column + s.base + p) }
{
    work[column + s.base + p]
}

// A function in the tables, with the columns behind them: what the numbers of its points are worked out from.
#[derive(Clone, Copy)]
pub struct FuncColumns<'a> {
    pub work: &'a [u32],
    pub span: Span,
    pub ghost lies: { Lies work.now span },
    pub ghost room: { columns_end ≤ length work.now },
}

impl FuncColumns<'_> {
    fn is_ensure(self, p: usize) -> bool
        requires { p < self.span.size }
        ensures { result ≡ ensure_at self.entry.work.now self.entry.span p }
    {
        points::is_ensure(tables::point_at(self.work, self.span.base + p))
    }

    // high of point p.
    pub fn high(self, p: usize) -> u32
        requires { p < self.span.size }
        ensures { result ≡ item self.entry.work.now (high_column + self.entry.span.base + p) }
    {
        figure_at(self.work, Columns::HIGH, self.span, p)
    }

    // The fill at point p.
    pub fn fill(self, h: Header, p: usize) -> u32
        requires { p < self.span.size }
        ensures { result ≡ filled_at self.entry.work.now h self.entry.span p }
    {
        if !self.is_ensure(p) {
            return 0;
        }
        match func_called_at(self.work, self.span, p.saturating_sub(1)) {
            Some(g) => {
                let left = h.stack.saturating_sub(self.work[Columns::LONGEST + g]);
                self.span.frame.saturating_sub(left)
            }
            None => 0,
        }
    }

    // What is kept at point p.
    pub fn kept(self, p: usize) -> u32
        requires { p < self.span.size }
        ensures { result ≡ kept_at self.entry.work.now self.entry.span p }
    {
        let fill = figure_at(self.work, Columns::FILL, self.span, p);
        self.span.frame.saturating_sub(fill)
    }

    // What the callee at point p leaves of the cache.
    pub fn cut(self, h: Header, p: usize) -> u32
        requires { p < self.span.size }
        ensures { result ≡ cut_at self.entry.work.now h self.entry.span p }
    {
        match func_called_at(self.work, self.span, p) {
            Some(g) => h.stack.saturating_sub(self.work[Columns::SHORTEST + g]),
            None => 0,
        }
    }

    // The level of the callee at point p.
    pub fn level(self, p: usize) -> u32
        requires { p < self.span.size }
        ensures { result ≡ level_at self.entry.work.now self.entry.span p }
    {
        match func_called_at(self.work, self.span, p) {
            Some(g) => self.work[Columns::LEVEL + g],
            None => 0,
        }
    }

    // The chain of the callee at point p along this call, where that of the caller and the price of a move are given.
    pub fn chained(self, own: u32, price: Price, p: usize) -> u32
        requires { (p < self.span.size) × (self.span.frame ≤ most_stack) × (own ≤ most_chain) × Small price }
        ensures { result ≡ chained_at self.entry.work.now self.entry.span own price p }
    {
        if p + 1 < self.span.size {
            own + price.of_move(self.kept(p + 1))
        } else {
            0
        }
    }
}

// The value of each point of s.
pub fn each_point<F: Fn(usize) -> u32>(s: Span, out: &mut [u32], value: F)
    requires { ((p : ℕ) → p < s.size → F.pre value p) × (s.size ≤ length out.old) }
    ensures { Filled (λ p v. F.post value p v) s.size out.old out.new }
{
    for (p, v) in out[..s.size].iter_mut().enumerate() {
        *v = value(p);
    }
}

// The values of the points of s go into a column of the points.
pub fn put_points(work: &mut [u32], column: usize, s: Span, values: &[u32])
    requires { (column + s.base + s.size ≤ length work.old) × (s.size ≤ length values.now) }
    ensures { Put (column + s.base) s.size values.now work.old work.new }
{
    let at = column + s.base;
    work[at..at + s.size].copy_from_slice(&values[..s.size]);
}

// The numbers of the functions from number at on become 0.
pub fn clear_column(work: &mut [u32], at: usize)
    requires { at + most_funcs ≤ length work.old }
    ensures { Changed at most_funcs work.old work.new × Funcs (λ g. 0) at 0 most_funcs work.new }
{
    work[at..at + Limits::FUNCS].fill(0);
}

// Raises the number of each callee of s, from number at on, to the values of the points that call it.
pub fn raise(work: &mut [u32], s: Span, at: usize, values: &[u32])
    requires { Lies work.old s × (columns_end ≤ length work.old) × (entry_column ≤ at) × (at ≤ chain_column) × (s.size ≤ length values.now) }
    ensures { Raised at s values.now work.old work.new }
{
    for p in 0..s.size {
        if let Some(g) = func_called_at(work, s, p) {
            work[at + g] = work[at + g].max(values[p]);
        }
    }
}
