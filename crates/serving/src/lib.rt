// What every service starts and ends with: the rows before those of the text, the judgement of the text, the row of an output, and the working space
// cleared.
#![tactic(auto)]

ghost use Rattle.std.specs.Prelude.{◌≡◌, length, ℕ, ◌≤◌, ◌<◌, ◌^◌, Err};
ghost use Rattle.std.proofs.Math.Option.{Option, none};
ghost use Rattle.model.specs.declared.Refusal.{Refusal};
ghost use Rattle.model.specs.Limits.{work_length};
ghost use Rattle.model.specs.Rows.{refuse, row_verdict};
ghost use Rattle.model.specs.Refusal.{work_row, price_row, priced_rows};
ghost use Rattle.model.specs.Services.{cleared};
ghost use Rattle.serving.specs.Served.{Passes, Lent, length_row};

use model::{Limits, Refusal, Row, Verdict};
use prices::Price;
use tables::Header;

// A row is met at this place.
pub fn refusal(row: Row, place: u32) -> Verdict
    ensures { result ≡ Err (refuse row place) }
{
    Err(Refusal { row, place })
}

// 15, for a service that asks for so many numbers and a working space of this length.
pub fn work_row(asked: usize, length: usize) -> Verdict
    requires { asked < 2 ^ 32 }
    ensures { result ≡ row_verdict (work_row asked length) }
{
    if length < asked {
        return refusal(Row::WorkTooSmall, asked as u32);
    }
    Ok(())
}

// 23.
fn price_row(price: Price) -> Verdict
    ensures { result ≡ row_verdict (price_row price.start price.each) }
{
    if Limits::START < price.start {
        return refusal(Row::PriceRange, 0);
    }
    if price.each == 0 {
        return refusal(Row::PriceRange, 0);
    }
    if Limits::EACH < price.each {
        return refusal(Row::PriceRange, 0);
    }
    Ok(())
}

// 15 and 23, for a service that gives prices.
pub fn priced_row(asked: usize, length: usize, price: Price) -> Verdict
    requires { asked < 2 ^ 32 }
    ensures { result ≡ row_verdict (priced_rows asked length price.start price.each) }
{
    work_row(asked, length)?;
    price_row(price)
}

// The rows before those of the text have this verdict; then the judgement of the text. A working space that is too small is untouched. No service asks for
// fewer numbers than Limits::WORK.
pub fn judge_lent(first: Verdict, text: &[u8], work: &mut [u32]) -> Result<Header, Refusal>
    requires { Passes work_length first work.old }
    ensures { (asked : ℕ) (rows : Option Refusal) → work_length ≤ asked → first ≡ row_verdict rows → (rows ≡ none → asked ≤ length work.old) →
        Lent asked rows text.now work.old result work.new }
{
    first?;
    judge::judge_text(text, work)
}

// 14, for an output of this length and so many bytes.
pub fn output_row(room: usize, length: usize) -> Verdict
    requires { length < 2 ^ 32 }
    ensures { result ≡ row_verdict (length_row room length) }
{
    if room < length {
        return refusal(Row::OutputTooSmall, length as u32);
    }
    Ok(())
}

// The numbers that a service asks for become 0, where there are as many.
pub fn clear(asked: usize, work: &mut [u32])
    ensures { work.new ≡ cleared asked work.old }
{
    if asked <= work.len() {
        work[..asked].fill(0);
    }
}
