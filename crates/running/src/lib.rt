// What run does with a text that is judged: a refusal before the first event, or the events.
#![tactic(auto)]

ghost use Rattle.std.specs.Prelude.{◌≡◌, ◌≤◌, length};
ghost use Rattle.model.specs.Limits.{work_length};
ghost use Rattle.model.specs.Rows.{row_verdict};
ghost use Rattle.model.specs.Sheet.{priced_sheet};
ghost use Rattle.model.specs.Refusal.{no_rows};
ghost use Rattle.prices.specs.Prices.{price_of};
ghost use Rattle.judge.specs.Judgement.{judged_in};
ghost use Rattle.serving.specs.Served.{ReadyAt};
ghost use Rattle.running.specs.Performs.{buffer_rows, none_done, finished_before, or_none, Performs};

use model::{Ending, Eviction, Limits, Refusal, Row, RunResult, Verdict};
use prices::Price;
use readout::Sheet;
use tables::Header;

// 16, 17 and 18, for buffers of these lengths. A task without a stack takes any cache.
fn buffer_row(events: usize, answers: usize, cache: usize, h: Header) -> Verdict
    ensures { result ≡ row_verdict (buffer_rows events answers cache h.funcs h.stack) }
{
    if events % 2 != 0 || Limits::EVENT_NUMBERS < events {
        return serving::refusal(Row::EventList, 0);
    }
    let count = events / 2;
    if answers < count {
        return serving::refusal(Row::AnswersTooSmall, count as u32);
    }
    if h.funcs != 0 && cache != h.stack as usize {
        return serving::refusal(Row::CacheSize, h.stack);
    }
    Ok(())
}

// A refusal before the first event.
fn refused(r: Refusal) -> RunResult
    ensures { result ≡ none_done r }
{
    RunResult {
        ending: Ending::Refused(r),
        done: 0,
        moved: 0,
        allowed: 0,
    }
}

// A run that has finished before the first event, over an event list of so many numbers.
fn finished(events: usize) -> RunResult
    ensures { result ≡ finished_before events }
{
    if events == 0 {
        return RunResult {
            ending: Ending::AllDone,
            done: 0,
            moved: 0,
            allowed: 0,
        };
    }
    refused(Refusal {
        row: Row::AfterFinish,
        place: 0,
    })
}

// The refusal of what was judged, one of 16 to 19, or the run of the task that the tables hold, on the core that evicts so.
fn run_task(
    judged: Result<Header, Refusal>,
    eviction: Eviction,
    price: Price,
    events: &[u32],
    answers: &mut [u32],
    cache: &mut [u32],
    memory: &mut [u32],
    work: &mut [u32],
) -> Result<RunResult, Refusal>
    requires { ReadyAt work_length price work.old judged }
    ensures { Performs eviction no_rows (priced_sheet (price_of price)) (judged_in work.old judged) work.old events.now
        answers.old cache.old memory.old (or_none result) work.new answers.new cache.new memory.new }
{
    let h = judged?;
    buffer_row(events.len(), answers.len(), cache.len(), h)?;
    if h.funcs == 0 {
        return Ok(finished(events.len()));
    }
    figures::figure_task(work, h, price);
    let sheet = Sheet {
        work,
        header: h,
        price,
    };
    let room = sheet.func(0).longest;
    if memory.len() < room as usize {
        return Err(Refusal {
            row: Row::MemoryTooSmall,
            place: room,
        });
    }
    bounds::bound_task(work, h, price);
    Ok(run::run_events(events, answers, cache, memory, work, h, price, eviction))
}

// What was judged is refused, or its events are run on the core that evicts so.
pub fn run_judged(
    judged: Result<Header, Refusal>,
    eviction: Eviction,
    price: Price,
    events: &[u32],
    answers: &mut [u32],
    cache: &mut [u32],
    memory: &mut [u32],
    work: &mut [u32],
) -> RunResult
    requires { ReadyAt work_length price work.old judged }
    ensures { Performs eviction no_rows (priced_sheet (price_of price)) (judged_in work.old judged) work.old events.now
        answers.old cache.old memory.old result work.new answers.new cache.new memory.new }
{
    match run_task(
        judged, eviction, price, events, answers, cache, memory, work,
    ) {
        Ok(result) => result,
        Err(r) => refused(r),
    }
}
