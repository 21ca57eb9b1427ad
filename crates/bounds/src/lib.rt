// What the sheet allows at each event of a run: the cost of a preemption, the fill of an ensure, the spill of a call. A run reads one of them at
// every event, and a price takes a multiplication; so they are worked out once, into columns behind the figures, and an event reads one number.
#![tactic(auto)]

ghost use Rattle.std.specs.Prelude.{◌≡◌, ◌+◌, ◌<◌};
ghost use Rattle.readout.specs.Readable.{Readable};
ghost use Rattle.bounds.specs.Bounds.{Bounded, BoundedTo, OnlyBounds};

use prices::Price;
use readout::Sheet;
pub use tables::Bounds;
use tables::Header;

// What the sheet allows in function f: at its points, and at a call. The sheet is borrowed anew for each, since the columns behind it are written.
fn bound_func(work: &mut [u32], header: Header, price: Price, f: usize)
    requires { BoundedTo price work.old header f × (f < header.funcs) }
    ensures { BoundedTo price work.new header (f + 1) × OnlyBounds work.old work.new }
{
    let s = tables::span_at(work, f);
    for p in 0..s.size {
        let point = Sheet {
            work,
            header,
            price,
        }
        .point(f, p);
        work[Bounds::COST + s.base + p] = point.cost;
        work[Bounds::FILL + s.base + p] = point.fill;
    }
    let func = Sheet {
        work,
        header,
        price,
    }
    .func(f);
    work[Bounds::SPILL + f] = func.spill;
}

// Works out what the sheet allows from the figures, and keeps it in the columns behind them. Nothing else changes, so neither the task nor the sheet.
pub fn bound_task(work: &mut [u32], header: Header, price: Price)
    requires { Readable price work.old header }
    ensures { Bounded price work.new header × OnlyBounds work.old work.new }
{
    for f in 0..header.funcs {
        bound_func(work, header, price, f);
    }
}
