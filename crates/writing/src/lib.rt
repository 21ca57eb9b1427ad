// What a service that writes bytes does with a text that is judged: a refusal, or the bytes of the task.
#![tactic(auto)]

ghost use Rattle.std.specs.Prelude.{◌≡◌, ◌≤◌, List, ℕ, length};
ghost use Rattle.model.specs.Limits.{work_length};
ghost use Rattle.model.specs.Task.{Task, task};
ghost use Rattle.model.specs.Sheet.{Sheet as Sheet·spec};
ghost use Rattle.model.specs.Refusal.{no_rows};
ghost use Rattle.theory.specs.Agree.{Agree};
ghost use Rattle.tables.specs.Tables.{task_of};
ghost use Rattle.tables.specs.Valid.{Settled};
ghost use Rattle.prices.specs.declared.Price.{Price as Price·spec};
ghost use Rattle.prices.specs.Prices.{Small};
ghost use Rattle.readout.specs.View.{sheet_of};
ghost use Rattle.judge.specs.Judgement.{judged_in};
ghost use Rattle.serving.specs.Served.{ReadyAt, Puts, Writes};
ghost use Rattle.writing.specs.Printing.{print_of};

pub use listing::Dearest;
use model::{Refusal, Written};
use prices::Price;
use readout::Sheet;
pub use reporting::Report;
use tables::Header;

mod listing;
mod reporting;

// What a service writes of a task: its report, or the list of its dearest points.
pub trait Print {
    // The bytes at a price, of a task with this sheet.
    ghost lines: { Price·spec → Task → Sheet·spec → List ℕ };

    // 14, or those of the sheet that is read.
    fn write(sheet: Sheet, output: &mut [u8]) -> Written
        ensures { Puts (lines sheet.entry.price (task_of sheet.entry.work.now sheet.entry.header) (sheet_of sheet.entry)) output.old result output.new };

    // Only the figures at the points of the task matter.
    ghost agrees: { (price : Price·spec) (t : Task) (s r : Sheet·spec) → Agree t s r → lines price t s ≡ lines price t r };
}

// 14, or the bytes of the task that the tables hold.
fn write_task<P: Print>(
    price: Price,
    output: &mut [u8],
    work: &mut [u32],
    header: Header,
) -> Written
    requires { Settled work.old header × (work_length ≤ length work.old) × Small price }
    ensures { Writes work_length no_rows (print_of P.lines price) (task (task_of work.old header)) work.old output.old result
        work.new output.new }
{
    figures::figure_task(work, header, price);
    P::write(
        Sheet {
            work,
            header,
            price,
        },
        output,
    )
}

// What was judged is refused, or its bytes are written.
pub fn write_judged<P: Print>(
    judged: Result<Header, Refusal>,
    price: Price,
    output: &mut [u8],
    work: &mut [u32],
) -> Written
    requires { ReadyAt work_length price work.old judged }
    ensures { Writes work_length no_rows (print_of P.lines price) (judged_in work.old judged) work.old output.old result
        work.new output.new }
{
    write_task::<P>(price, output, work, judged?)
}
