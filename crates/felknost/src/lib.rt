// The C interface. include/felknost.h declares it. Each export is written out, since C calls it by its name.
#![tactic(auto)]

ghost use Rattle.std.specs.Prelude.{◌≡◌, ◌+◌, ◌≤◌, length};
ghost use Rattle.model.specs.declared.Eviction.TheVariants.{Eager, Lazy};
ghost use Rattle.model.specs.Rows.{verdict_code, verdict_place, ending_verdict, verdict_numbers};
ghost use Rattle.theory.specs.Exported.{RunAnswered};
ghost use Rattle.model.specs.Services.{over, check_number, called, write_buffers, report_numbers, dearest_numbers, run_buffers, run_numbers};

use model::{Ending, Verdict};
use tables::Layout;

// The numbers of a result: code, place, and then those that a service adds.
#[derive(Clone, Copy)]
struct Numbers;

impl Numbers {
    const CODE: usize = 0;

    const PLACE: usize = 1;
    // Where those of the service begin.
    const ADDED: usize = 2;
    // How many there are with the bytes written.
    const WRITE: usize = 3;
    // How many there are with events done, moved and allowed.
    const RUN: usize = 5;
}

// Check on the bytes of a text alone: CODE times 65,536 plus PLACE, 0 for an accepted text.
#[unsafe(no_mangle)]
pub extern "C" fn felknost_check(text: &[u8]) -> u32
    ensures { result ≡ check_number text.now }
{
    let mut work = [0u32; Layout::LENGTH];
    match judge::judge_text(text, &mut work) {
        Ok(_) => 0,
        Err(r) => codes::packed(r),
    }
}

// C gets numbers: 0 and 0 for acceptance, or the code and the place of a refusal.
fn code_of(v: Verdict) -> u32
    ensures { result ≡ verdict_code v }
{
    match v {
        Ok(()) => 0,
        Err(r) => codes::code_of(r.row),
    }
}

fn place_of(v: Verdict) -> u32
    ensures { result ≡ verdict_place v }
{
    match v {
        Ok(()) => 0,
        Err(r) => r.place,
    }
}

// The ending of a run has the code and the place of this verdict.
fn verdict_of(e: Ending) -> Verdict
    ensures { result ≡ ending_verdict e }
{
    match e {
        Ending::AllDone => Ok(()),
        Ending::Refused(r) => Err(r),
    }
}

// Writes code and place of a verdict, and the numbers that a service adds, over the first of a result.
fn put_numbers(res: &mut [u64], v: Verdict, added: &[u64])
    requires { 2 + length added.now ≤ length res.old }
    ensures { res.new ≡ over (verdict_numbers v added.now) res.old }
{
    res[Numbers::CODE] = code_of(v) as u64;
    res[Numbers::PLACE] = place_of(v) as u64;
    res[Numbers::ADDED..Numbers::ADDED + added.len()].copy_from_slice(added);
}

// Report, with its result in the first three numbers of a buffer. 1, or 0 with nothing touched where that buffer has fewer.
#[unsafe(no_mangle)]
pub extern "C" fn felknost_report(
    text: &[u8],
    start: u32,
    each: u32,
    output: &mut [u8],
    work: &mut [u32],
    res: &mut [u64],
) -> u32
    ensures { called result res.new (write_buffers work.new output.new)
        ≡ report_numbers text.now start each work.old output.old res.old }
{
    if res.len() < Numbers::WRITE {
        return 0;
    }
    let report = services::report(text, start, each, output, work);
    put_numbers(res, report.map(|_| ()), &[report.unwrap_or(0) as u64]);
    1
}

// The dearest points, with the result as for report.
#[unsafe(no_mangle)]
pub extern "C" fn felknost_dearest_points(
    text: &[u8],
    start: u32,
    each: u32,
    output: &mut [u8],
    work: &mut [u32],
    res: &mut [u64],
) -> u32
    ensures { called result res.new (write_buffers work.new output.new)
        ≡ dearest_numbers text.now start each work.old output.old res.old }
{
    if res.len() < Numbers::WRITE {
        return 0;
    }
    let list = services::dearest_points(text, start, each, output, work);
    put_numbers(res, list.map(|_| ()), &[list.unwrap_or(0) as u64]);
    1
}

// Run, with its result in the first five numbers of a buffer. 1, or 0 with nothing touched where that buffer has fewer. In demand_3: where the answer is 1,
// the fourth number of the result, what was moved, is at most the fifth, what the sheet allows.
#[unsafe(no_mangle)]
pub extern "C" fn felknost_run(
    text: &[u8],
    start: u32,
    each: u32,
    events: &[u32],
    answers: &mut [u32],
    cache: &mut [u32],
    memory: &mut [u32],
    work: &mut [u32],
    res: &mut [u64],
) -> u32
    ensures left { called result res.new (run_buffers work.new answers.new cache.new memory.new)
        ≡ run_numbers Eager text.now start each work.old events.now answers.old cache.old
        memory.old res.old }
    ensures demand_3 { RunAnswered result res.old res.new }
{
    if res.len() < Numbers::RUN {
        return 0;
    }
    let run = services::run(text, start, each, events, answers, cache, memory, work);
    put_numbers(
        res,
        verdict_of(run.ending),
        &[run.done as u64, run.moved, run.allowed],
    );
    1
}

// Run on the core with a lazy pointer, with the result as for run.
#[unsafe(no_mangle)]
pub extern "C" fn felknost_run_lazy(
    text: &[u8],
    start: u32,
    each: u32,
    events: &[u32],
    answers: &mut [u32],
    cache: &mut [u32],
    memory: &mut [u32],
    work: &mut [u32],
    res: &mut [u64],
) -> u32
    ensures left { called result res.new (run_buffers work.new answers.new cache.new memory.new)
        ≡ run_numbers Lazy text.now start each work.old events.now answers.old cache.old
        memory.old res.old }
    ensures demand_3 { RunAnswered result res.old res.new }
{
    if res.len() < Numbers::RUN {
        return 0;
    }
    let lazy = services::run_lazy(text, start, each, events, answers, cache, memory, work);
    put_numbers(
        res,
        verdict_of(lazy.ending),
        &[lazy.done as u64, lazy.moved, lazy.allowed],
    );
    1
}
