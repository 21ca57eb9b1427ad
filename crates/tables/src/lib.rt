// The tables of a decoded task in the working space: a point has a kind and two arguments, a function a frame, its first point and its
// number of points. Functions and points are read and written here and nowhere else.
#![tactic(auto)]

ghost use Rattle.std.specs.Prelude.{◌≡◌, ◌+◌, ◌<◌, ◌≤◌, length};
ghost use Rattle.model.specs.Limits.{most_funcs, most_in_all};
ghost use Rattle.tables.specs.Layout.{tables_length};
ghost use Rattle.tables.specs.Tables.{point_of, is_access, point_at, put_point, kind_of, first_argument, second_argument, put_func, span_at, opening_line, line_in};

pub use held::{FitFunc, HeldFunc, HeldTask, LinkedTask};
pub use layout::{Bounds, Columns, Frames, Layout};
use model::Point;

mod held;
mod layout;

// What is known of a task beside its tables: the cache blocks, how many functions, and how many points in all.
#[derive(Clone, Copy)]
pub struct Header {
    pub stack: u32,
    pub funcs: usize,
    pub points: usize,
}

// What the tables keep of a function: its frame, the number of its first point, and how many points it has.
#[derive(Clone, Copy)]
pub struct Span {
    pub frame: u32,
    pub base: usize,
    pub size: usize,
}

// The point that a kind and two arguments stand for. The working space that C lends is numbers, so a kind is one there.
fn point_of(kind: u32, first: u32, second: u32) -> Point
    ensures { result ≡ point_of kind first second }
{
    match kind {
        0 => Point::Load(first),
        1 => Point::Store(first),
        2 => Point::Call(first),
        3 => Point::Ensure(first),
        4 => Point::Goto(first),
        5 => Point::Either(first, second),
        _ => Point::Return,
    }
}

// Point i of the task, counted over all functions.
pub fn point_at(work: &[u32], i: usize) -> Point
    requires { (i < most_in_all) × (tables_length ≤ length work.now) }
    ensures { result ≡ point_at work.now i }
{
    point_of(work[i], work[Layout::FIRST + i], work[Layout::SECOND + i])
}

// Point i is a load or a store: the two lowest kinds, so that one comparison tells.
pub fn access_at(work: &[u32], i: usize) -> bool
    requires { (i < most_in_all) × (tables_length ≤ length work.now) }
    ensures { result ≡ is_access (point_at work.now i) }
{
    work[i] < 2
}

fn kind_of(p: Point) -> u32
    ensures { result ≡ kind_of p }
{
    match p {
        Point::Load(_) => 0,
        Point::Store(_) => 1,
        Point::Call(_) => 2,
        Point::Ensure(_) => 3,
        Point::Goto(_) => 4,
        Point::Either(_, _) => 5,
        Point::Return => 6,
    }
}

fn first_argument(p: Point) -> u32
    ensures { result ≡ first_argument p }
{
    match p {
        Point::Load(n)
        | Point::Store(n)
        | Point::Call(n)
        | Point::Ensure(n)
        | Point::Goto(n)
        | Point::Either(n, _) => n,
        Point::Return => 0,
    }
}

fn second_argument(p: Point) -> u32
    ensures { result ≡ second_argument p }
{
    if let Point::Either(_, r) = p { r } else { 0 }
}

pub fn put_point(work: &mut [u32], i: usize, p: Point)
    requires { (i < most_in_all) × (tables_length ≤ length work.old) }
    ensures { work.new ≡ put_point work.old i p }
{
    work[i] = kind_of(p);
    work[Layout::FIRST + i] = first_argument(p);
    work[Layout::SECOND + i] = second_argument(p);
}

// Function f of the task.
pub fn span_at(work: &[u32], f: usize) -> Span
    requires { (f < most_funcs) × (tables_length ≤ length work.now) }
    ensures { result ≡ span_at work.now f }
{
    let frame = work[Layout::FRAME + f];
    let base = work[Layout::BASE + f] as usize;
    let size = work[Layout::SIZE + f] as usize;
    Span { frame, base, size }
}

pub fn put_func(work: &mut [u32], f: usize, frame: u32, base: u32, size: u32)
    requires { (f < most_funcs) × (tables_length ≤ length work.old) }
    ensures { work.new ≡ put_func work.old f frame base size }
{
    work[Layout::FRAME + f] = frame;
    work[Layout::BASE + f] = base;
    work[Layout::SIZE + f] = size;
}

// The line that opens function f, whose first point has the number base.
pub fn opening_line(f: usize, base: usize) -> u32
    requires { (f < most_funcs) × (base ≤ most_in_all) }
    ensures { result ≡ opening_line f base }
{
    (2 + 2 * f + base) as u32
}

// The line of point p of function f, whose first point has the number base.
pub fn line_in(f: usize, base: usize, p: usize) -> u32
    requires { (f < most_funcs) × (base + p < most_in_all) }
    ensures { result ≡ line_in f base p }
{
    (2 + 2 * f + base + 1 + p) as u32
}
