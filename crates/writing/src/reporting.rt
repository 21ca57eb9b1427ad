// The report of a task by the sheet in the columns, or 14.
ghost use Rattle.std.specs.Prelude.{◌≡◌, length};
ghost use Rattle.model.specs.Rows.{row_verdict};
ghost use Rattle.model.specs.Sheet.{report_with};
ghost use Rattle.theory.proofs.Agree.{report-agree};
ghost use Rattle.report.specs.Report.{shows_once, report_in};
ghost use Rattle.serving.specs.Served.{length_row};

use super::Print;
use model::{Verdict, Written};
use readout::Sheet;

// 14, for an output of this length. The length of the report is worked out only where the output may be too short, since that takes every figure once more.
fn report_row(room: usize, sheet: Sheet) -> Verdict
    ensures { result ≡ row_verdict (length_row room (length (report_in sheet.entry.price sheet.entry.work.now sheet.entry.header))) }
{
    if report::most_length(sheet.header) <= room {
        return Ok(());
    }
    serving::output_row(room, report::report_length(sheet))
}

// The report.
#[derive(Clone, Copy)]
pub struct Report;

impl Print for Report {
    ghost lines = { λ price t s. report_with (shows_once price) t s };

    ghost agrees = { λ price t s r a. report-agree a (shows_once price) };

    fn write(sheet: Sheet, output: &mut [u8]) -> Written {
        report_row(output.len(), sheet)?;
        let written = report::put_report(output, sheet);
        Ok(written as u32)
    }
}
