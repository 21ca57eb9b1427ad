// The first line of a text, read by its pattern to its line feed. A byte of the line says which pattern is tried.
#![tactic(auto)]

ghost use Rattle.std.specs.Prelude.{◌≡◌, ℕ, ◌≤◌, length};
ghost use Rattle.model.specs.declared.Point.{Point};
ghost use Rattle.line.specs.Lines.{StackAs, FuncAs, InsideAs};
ghost use Rattle.line.specs.Patterns.{numbered, either, return, ensure_or_either, points, parse, parse_by, parsed_as};

use model::Point;

// What an allowed line inside a function is: a point, and how many bytes the line takes; or the closing line, which takes two.
#[derive(Clone, Copy)]
pub enum Inside {
    Point(Point, usize),
    Close,
}

// A point line with one number, whose opening word is w: the point that is made of the number, and how many bytes the line takes.
fn read_numbered<F: Fn(u32) -> Point>(w: &[u8], make: F, s: &[u8]) -> Option<(Point, usize)>
    requires { F.IsAlwaysCallable make }
    ensures { (f : ℕ → Point) → ((n : ℕ) (x : Point) → F.post make n x → x ≡ f n) → parsed_as result ≡ parse (numbered w.now f) s.now }
{
    let (n, k) = scan::one(w, b")\n", s)?;
    Some((make(n), k))
}

fn read_either(s: &[u8]) -> Option<(Point, usize)>
    ensures { parsed_as result ≡ parse either s.now }
{
    let (p, q, k) = scan::two(b"  (either ", b" ", b")\n", s)?;
    Some((Point::Either(p, q), k))
}

// An ensure or an either line: the letter after the e says which pattern is tried.
fn read_e(s: &[u8]) -> Option<(Point, usize)>
    requires { 5 ≤ length s.now }
    ensures { parsed_as result ≡ parse_by ensure_or_either s.now }
{
    match s[4] {
        b'n' => read_numbered(b"  (ensure ", Point::Ensure, s),
        b'i' => read_either(s),
        _ => None,
    }
}

fn read_return(s: &[u8]) -> Option<(Point, usize)>
    ensures { parsed_as result ≡ parse return s.now }
{
    let w = b"  (return)\n";
    if scan::starts(w, s) {
        Some((Point::Return, w.len()))
    } else {
        None
    }
}

// The bytes of the shortest point lines, as "  (load 0)" with its line feed.
const SHORTEST: usize = 11;

// A point line: the letter after the two spaces and the bracket says which pattern is tried.
fn read_point(s: &[u8]) -> Option<(Point, usize)>
    ensures { parsed_as result ≡ parse_by points s.now }
{
    if s.len() < SHORTEST {
        return None;
    }
    match s[3] {
        b'l' => read_numbered(b"  (load ", Point::Load, s),
        b's' => read_numbered(b"  (store ", Point::Store, s),
        b'c' => read_numbered(b"  (call ", Point::Call, s),
        b'e' => read_e(s),
        b'g' => read_numbered(b"  (goto ", Point::Goto, s),
        b'r' => read_return(s),
        _ => None,
    }
}

// The line inside a function that s begins with.
pub fn read_inside(s: &[u8]) -> Option<Inside>
    ensures { InsideAs result s.now }
{
    if let Some((x, k)) = read_point(s) {
        return Some(Inside::Point(x, k));
    }
    if scan::starts(b")\n", s) {
        Some(Inside::Close)
    } else {
        None
    }
}

// The stack line that s begins with: the cache blocks, and how many bytes the line takes.
pub fn read_stack(s: &[u8]) -> Option<(u32, usize)>
    ensures { StackAs result s.now }
{
    scan::one(b"(stack ", b")\n", s)
}

// The func line that s begins with: the frame, and how many bytes the line takes.
pub fn read_func(s: &[u8]) -> Option<(u32, usize)>
    ensures { FuncAs result s.now }
{
    scan::one(b"(func ", b"\n", s)
}
