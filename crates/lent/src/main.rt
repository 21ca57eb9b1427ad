// Runs check over a working space that is longer than asked for and over one that is one number short, neither of them zero before, and says what it returned and
// what they hold then. The C and Rust tests lend such buffers to the other services, through the archive. felknost_check has a working space of its own, so
// services::check is run here.
#![tactic(auto)]

ghost use Rattle.std.specs.Prelude.{◌<◌, ◌≤◌, ◌^◌, length};

use model::{Limits, Verdict};
use std::io;

struct Lent;

impl Lent {
    // What every number of a working space is before.
    const NUMBER: u32 = 7;
    // Numbers of a working space that is longer than asked for, and of one that is one short.
    const WORK: usize = Limits::WORK + 16;

    const SHORT_WORK: usize = Limits::WORK - 1;
}

// How many numbers at the front are 0.
fn zeros(work: &[u32]) -> usize
    ensures { result ≤ length work.now }
{
    work.iter().position(|x| *x != 0).unwrap_or(work.len())
}

// How many of these numbers are what they were.
fn untouched(work: &[u32]) -> usize {
    work.iter().filter(|x| **x == Lent::NUMBER).count()
}

fn say_verdict(rt: &impl Print, v: Verdict) -> io::Result<()> {
    let (code, place) = match v {
        Ok(()) => (0, 0),
        Err(r) => (codes::code_of(r.row), r.place),
    };
    println!(rt; "  code {code} place {place}")
}

fn say_work(rt: &impl Print, work: &[u32]) -> io::Result<()> {
    let n = zeros(work);
    let m = untouched(&work[n..]);
    println!(rt; "  work: 0 at the first {n}, untouched {m} of the others")
}

// Check over a working space of N numbers.
fn check_over<const N: usize>(rt: &impl Print, text: &[u8]) -> io::Result<()>
    requires { N < 2 ^ 32 }
{
    let mut work = [Lent::NUMBER; N];
    let verdict = services::check(text, &mut work);
    say_verdict(rt, verdict)?;
    say_work(rt, &work)
}

fn main(rt: HostRuntime) -> io::Result<()> {
    // The second loads an offset that was not stored before.
    let task = b"(stack 2)\n(func 1\n  (store 0)\n  (load 0)\n  (return)\n)\n";
    let refused = b"(stack 2)\n(func 1\n  (load 0)\n  (return)\n)\n";
    println!(rt; "check of a task")?;
    check_over::<{ Lent::WORK }>(&rt, task)?;
    println!(rt; "check of a task that is refused")?;
    check_over::<{ Lent::WORK }>(&rt, refused)?;
    println!(rt; "check with a working space that is one number short")?;
    check_over::<{ Lent::SHORT_WORK }>(&rt, task)
}
