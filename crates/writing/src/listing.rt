// The list of the dearest points of a task by the sheet in the columns, or 14.
ghost use Rattle.model.specs.Dearest.{dearest_with};
ghost use Rattle.theory.proofs.Agree.{dearest-agree};
ghost use Rattle.dearest.specs.Ranking.{Printable, list_text};
ghost use Rattle.serving.specs.Served.{Puts};

use super::Print;
use model::{Limits, Written};
use readout::Sheet;

// 14, or the lines of these ranks.
fn write_ranks(output: &mut [u8], ranks: &[u64]) -> Written
    requires { Printable ranks.now }
    ensures { Puts (list_text ranks.now) output.old result output.new }
{
    let length = dearest::list_length(ranks);
    serving::output_row(output.len(), length)?;
    let written = dearest::put_list(output, ranks);
    Ok(written as u32)
}

// The list of the dearest points.
#[derive(Clone, Copy)]
pub struct Dearest;

impl Print for Dearest {
    ghost lines = { λ price t s. dearest_with t s };

    ghost agrees = { λ price t s r a. dearest-agree a };

    fn write(sheet: Sheet, output: &mut [u8]) -> Written {
        let ranks = dearest::rank_task(sheet);
        let listed = Limits::DEAREST.min(sheet.header.points);
        write_ranks(output, &ranks.places[..listed])
    }
}
