// What a text is, for every service: it is read, linked and walked, in the order of the refusals. An accepted task is handed on in the tables.
#![tactic(auto)]

ghost use Rattle.std.specs.Prelude.{◌≡◌, ◌≤◌, length};
ghost use Rattle.model.specs.Rows.{row_verdict};
ghost use Rattle.model.specs.Refusal.{judged, task_rows};
ghost use Rattle.model.specs.WellFormed.{Shaped};
ghost use Rattle.tables.specs.Layout.{tables_length};
ghost use Rattle.tables.specs.Tables.{task_of};
ghost use Rattle.tables.specs.Valid.{Holds};
ghost use Rattle.judge.specs.Judgement.{Judges};

use model::{Limits, Refusal, Row, Verdict};
use tables::{Header, HeldTask};

// 7 to 13 of the task that was read.
#[tactic(auto, using(crate::proofs::Laws::link_first, crate::proofs::Laws::link_fine, crate::proofs::Laws::linked))]
fn task_rows(work: &[u32], h: Header) -> Verdict
    requires { Holds work.now h × Shaped (task_of work.now h) }
    ensures { result ≡ row_verdict (task_rows (task_of work.now h)) }
{
    let task = HeldTask { work, header: h };
    links::link_rows(task)?;
    reach::walk_rows(task)
}

// A task, which the tables hold, or a refusal. Everything past the tables is as it was.
pub fn judge_text(text: &[u8], work: &mut [u32]) -> Result<Header, Refusal>
    requires { tables_length ≤ length work.old }
    ensures { Judges (judged text.now) work.old result work.new }
{
    if Limits::BYTES < text.len() {
        return Err(Refusal {
            row: Row::TextTooLong,
            place: 0,
        });
    }
    let h = reader::read_text(text, work)?;
    task_rows(work, h)?;
    Ok(h)
}
