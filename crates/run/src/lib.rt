// A run over an event list: every event in its order, until one is refused or all are done. The answers, the cache, the memory and the counts are
// those of the model's run.
#![tactic(auto)]

ghost use Rattle.std.specs.Prelude.{◌≡◌};
ghost use Rattle.run.specs.Events.{Fitting, ended_with, ServesIn};

use model::{Ending, Eviction, RunResult};
use prices::Price;
use tables::Header;

fn ended(ending: Ending, done: u32, moved: u64, allowed: u64) -> RunResult
    ensures { result ≡ ended_with ending done moved allowed }
{
    RunResult {
        ending,
        done,
        moved,
        allowed,
    }
}

// The events, two numbers each, from a fresh start of the task in the working space on the core that evicts so. An answer is written for each event done.
pub fn run_events(
    events: &[u32],
    answers: &mut [u32],
    cache: &mut [u32],
    memory: &mut [u32],
    work: &mut [u32],
    h: Header,
    price: Price,
    eviction: Eviction,
) -> RunResult
    requires { Fitting price work.old h events.now answers.old cache.old memory.old }
    ensures { ServesIn eviction price h events.now answers.old cache.old memory.old
        work.old result answers.new cache.new memory.new work.new }
{
    let mut x = turns::start(work, h, eviction, memory.len());
    let count = events.len() / 2;
    for i in 0..count {
        let done = i as u32;
        let event = match turns::decode(work, h, x, done, events[2 * i], events[2 * i + 1]) {
            Ok(event) => event,
            Err(r) => return ended(Ending::Refused(r), done, x.moved, x.allowed),
        };
        let turned = turns::perform(work, h, price, x, cache, memory, event);
        answers[i] = turned.answer;
        x = turned.state;
    }
    ended(Ending::AllDone, count as u32, x.moved, x.allowed)
}
