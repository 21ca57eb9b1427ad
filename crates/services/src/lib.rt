// The services over a task text. Each judges what it was lent and refuses; none has a requires. Each goes the same way: 15 (and 23 where there are
// prices), the judgement of the text, its own rows, its own work, and the working space cleared. In left: what a service returns and what it leaves of
// every buffer. In numbers: code and place, by the table of the rules; those of a run are the plain stack's.
// The two services that write bytes, and the two runs, have clauses of their own, and are calls of one function each.
#![tactic(auto)]

ghost use Rattle.std.specs.Prelude.{◌≡◌, []};
ghost use Rattle.model.specs.Rows.{verdict_numbers, ending_numbers};
ghost use Rattle.model.specs.declared.Eviction.TheVariants.{Eager, Lazy};
ghost use Rattle.model.specs.Sheet.{move_price, priced_sheet, sheet_of};
ghost use Rattle.model.specs.Plain.{events_of};
ghost use Rattle.model.specs.Services.{after_check, check_judged_of, check_of, after_write, report_judged_of, report_of, dearest_judged_of, dearest_of};
ghost use Rattle.model.specs.Services.{written_verdict, after_run, run_of, run_judged_of, judged_numbers, plain_as};
ghost use Rattle.model.specs.Services.{Demand3, LeavesClean, PaysOnce};
ghost use Rattle.writing.specs.Printing.{wrote_of};

use model::{Eviction, Limits, RunResult, Verdict, Written};
use prices::Price;
use writing::{Dearest, Print, Report};

// Check: the verdict on a text, and the working space cleared.
//
//     check(b"(stack 65)\n", &mut work) is Err(Refusal { row: Row::StackSize, place: 1 })
pub fn check(text: &[u8], work: &mut [u32]) -> Verdict
    ensures left { after_check result work.new ≡ check_of text.now work.old }
    ensures numbers { verdict_numbers result [] ≡ judged_numbers (check_judged_of text.now work.old) }
{
    let first = serving::work_row(Limits::WORK, work.len());
    let judged = serving::judge_lent(first, text, work);
    serving::clear(Limits::WORK, work);
    judged?;
    Ok(())
}

// A service that writes bytes, and the working space cleared.
fn write<P: Print>(
    text: &[u8],
    start: u32,
    each: u32,
    output: &mut [u8],
    work: &mut [u32],
) -> Written
    ensures { after_write result work.new output.new
        ≡ wrote_of P.lines text.now start each work.old output.old }
{
    let price = Price { start, each };
    let first = serving::priced_row(Limits::WORK, work.len(), price);
    let judged = serving::judge_lent(first, text, work);
    let result = writing::write_judged::<P>(judged, price, output, work);
    serving::clear(Limits::WORK, work);
    result
}

// Report: the sheet of a text over the first bytes of the output, and the working space cleared. A move of n blocks has the price start + each * n, and
// none where n is 0; with 0 and 1 the sheet counts blocks, and the lines of the points have once as their last field.
//
//     report(b"(stack 65)\n", 0, 1, &mut output, &mut work) is Err(Refusal { row: Row::StackSize, place: 1 })
pub fn report(text: &[u8], start: u32, each: u32, output: &mut [u8], work: &mut [u32]) -> Written
    ensures left { after_write result work.new output.new
        ≡ report_of text.now start each work.old output.old }
    ensures numbers { verdict_numbers (written_verdict result) []
        ≡ judged_numbers (report_judged_of text.now start each work.old output.old) }
{
    write::<Report>(text, start, each, output, work)
}

// The dearest points: the first ten of the sheet's points by falling cost, then by falling save, by function and by point, or all if there are fewer, a
// line each over the first bytes of the output, and the working space cleared. Prices are as for the report.
//
//     dearest_points(b"(stack 65)\n", 0, 1, &mut output, &mut work) is Err(Refusal { row: Row::StackSize, place: 1 })
pub fn dearest_points(
    text: &[u8],
    start: u32,
    each: u32,
    output: &mut [u8],
    work: &mut [u32],
) -> Written
    ensures left { after_write result work.new output.new
        ≡ dearest_of text.now start each work.old output.old }
    ensures numbers { verdict_numbers (written_verdict result) []
        ≡ judged_numbers (dearest_judged_of text.now start each work.old output.old) }
{
    write::<Dearest>(text, start, each, output, work)
}

// A run on the core that evicts so, and the working space cleared.
fn run_on(
    eviction: Eviction,
    text: &[u8],
    start: u32,
    each: u32,
    events: &[u32],
    answers: &mut [u32],
    cache: &mut [u32],
    memory: &mut [u32],
    work: &mut [u32],
) -> RunResult
    ensures { after_run result work.new answers.new cache.new memory.new
        ≡ run_of eviction text.now start each work.old events.now answers.old cache.old memory.old }
{
    let price = Price { start, each };
    let first = serving::priced_row(Limits::WORK, work.len(), price);
    let judged = serving::judge_lent(first, text, work);
    let result = running::run_judged(
        judged, eviction, price, events, answers, cache, memory, work,
    );
    serving::clear(Limits::WORK, work);
    result
}

// Run: the events of a list on the task of a text, from a fresh start on the lent cache and memory, and the working space cleared. In demand_3: what
// was returned and left is that of the plain stack, and what was moved costs no more than the sheet allows. In once, with start 0 and each 1: what was moved
// is at most the spills and fills on the sheet and once of each point at which the run was preempted, so of one point where exactly one preemption is among
// the events done. At other prices nothing is claimed of once.
//
//     run(b"(stack 65)\n", 0, 1, &[], &mut answers, &mut cache, &mut memory, &mut work) is a refusal in row StackSize at place 1, with 0 events done
pub fn run(
    text: &[u8],
    start: u32,
    each: u32,
    events: &[u32],
    answers: &mut [u32],
    cache: &mut [u32],
    memory: &mut [u32],
    work: &mut [u32],
) -> RunResult
    ensures left { after_run result work.new answers.new cache.new memory.new
        ≡ run_of Eager text.now start each work.old events.now answers.old cache.old memory.old }
    ensures numbers { ending_numbers result.ending ≡ ending_numbers (plain_as
        (run_judged_of text.now start each work.old events.now answers.old cache.old memory.old)
        (events_of events.now)).ending }
    ensures demand_3 { Demand3
        (run_judged_of text.now start each work.old events.now answers.old cache.old memory.old)
        events.now answers.old (after_run result work.new answers.new cache.new memory.new) }
    ensures once { start ≡ 0 → each ≡ 1 → PaysOnce sheet_of
        (run_judged_of text.now start each work.old events.now answers.old cache.old memory.old)
        (events_of events.now) result.moved }
{
    run_on(
        Eviction::Eager,
        text,
        start,
        each,
        events,
        answers,
        cache,
        memory,
        work,
    )
}

// Run on the core with a lazy pointer, which writes back only the blocks below it: the events, the prices and the buffers are those of run. It returns and
// leaves what run does, but for what was moved, which is no more. In clean: the blocks from the pointer up to the top of what is cached equal memory.
// demand_3 and once are those of run.
//
//     run_lazy(b"(stack 65)\n", 0, 1, &[], &mut answers, &mut cache, &mut memory, &mut work) is a refusal in row StackSize at place 1, with 0 events done
pub fn run_lazy(
    text: &[u8],
    start: u32,
    each: u32,
    events: &[u32],
    answers: &mut [u32],
    cache: &mut [u32],
    memory: &mut [u32],
    work: &mut [u32],
) -> RunResult
    ensures left { after_run result work.new answers.new cache.new memory.new
        ≡ run_of Lazy text.now start each work.old events.now answers.old cache.old memory.old }
    ensures numbers { ending_numbers result.ending ≡ ending_numbers (plain_as
        (run_judged_of text.now start each work.old events.now answers.old cache.old memory.old)
        (events_of events.now)).ending }
    ensures demand_3 { Demand3
        (run_judged_of text.now start each work.old events.now answers.old cache.old memory.old)
        events.now answers.old (after_run result work.new answers.new cache.new memory.new) }
    ensures clean { LeavesClean Lazy (priced_sheet (move_price start each))
        (run_judged_of text.now start each work.old events.now answers.old cache.old memory.old)
        events.now cache.old memory.old (after_run result work.new answers.new cache.new memory.new) }
    ensures once { start ≡ 0 → each ≡ 1 → PaysOnce sheet_of
        (run_judged_of text.now start each work.old events.now answers.old cache.old memory.old)
        (events_of events.now) result.moved }
{
    run_on(
        Eviction::Lazy,
        text,
        start,
        each,
        events,
        answers,
        cache,
        memory,
        work,
    )
}
