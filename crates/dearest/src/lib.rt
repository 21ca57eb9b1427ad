// The ten dearest points of a task by the sheet in the columns: found in one pass over the points, and printed, a line each. A point has a rank,
// one number that is higher where the point comes earlier in the list, so the pass compares numbers.
#![tactic(auto)]

ghost use Rattle.std.specs.Prelude.{◌≡◌, ◌+◌, ◌<◌, ◌≤◌, length};
ghost use Rattle.model.specs.Limits.{most_funcs, most_points};
ghost use Rattle.model.specs.Text.{bytes};
ghost use Rattle.model.specs.Sheet.{line_text};
ghost use Rattle.model.specs.Services.{over};
ghost use Rattle.tables.specs.Tables.{size_at};
ghost use Rattle.readout.specs.View.{sheet_of};
ghost use Rattle.ranks.specs.Ranks.{best};
ghost use Rattle.dearest.specs.Ranking.{save_end, rank_with, point_ranks, ranks_in, rank_text, list_text, rank_end, most_list, Printable, Lists};

use model::Limits;
use print::{Counter, Sink, Writer};
use ranks::Ranks;
use readout::{PointFigures, Sheet};

// How many prices of what is saved, functions of a task and points of a function a rank has room for.
#[derive(Clone, Copy)]
struct Rank;

impl Rank {
    const SAVES: u64 = 32768;

    const FUNCS: u64 = Limits::FUNCS as u64;

    const POINTS: u64 = Limits::POINTS as u64;
}

// The rank of point p of function f with these figures.
fn rank_with(x: PointFigures, f: usize, p: usize) -> u64
    requires { (f < most_funcs) × (p < most_points) × (x.save < save_end) }
    ensures { result ≡ rank_with x f p }
{
    let func = (Limits::FUNCS - 1 - f) as u64;
    let point = (Limits::POINTS - 1 - p) as u64;
    ((x.cost as u64 * Rank::SAVES + x.save as u64) * Rank::FUNCS + func) * Rank::POINTS + point
}

// Takes the points of function f in.
fn rank_points(ranks: &mut Ranks, sheet: Sheet, f: usize)
    requires { f < sheet.header.funcs }
    ensures { ranks.new.places ≡ best ranks.old.places (point_ranks (sheet_of sheet.entry) f (size_at sheet.entry.work.now f)) }
{
    for p in 0..tables::span_at(sheet.work, f).size {
        let rank = rank_with(sheet.point(f, p), f, p);
        ranks.take_in(rank);
    }
}

// Takes the points of all functions in.
fn rank_funcs(ranks: &mut Ranks, sheet: Sheet)
    ensures { ranks.new.places ≡ best ranks.old.places (ranks_in sheet.entry.price sheet.entry.work.now sheet.entry.header) }
{
    for f in 0..sheet.header.funcs {
        rank_points(ranks, sheet, f);
    }
}

// Ranks the points of a task. The first of these ranks are those of its dearest points: as many as it has points, and at most ten.
pub fn rank_task(sheet: Sheet) -> Ranks
    ensures { Lists sheet.entry.price sheet.entry.work.now sheet.entry.header result.places }
{
    let mut ranks = Ranks::none();
    rank_funcs(&mut ranks, sheet);
    ranks
}

// The numbers of the line of a rank: function, point and cost.
fn rank_numbers(rank: u64) -> [u32; 3]
    requires { rank < rank_end }
    ensures { (line_text (bytes "(dear") result ≡ rank_text rank) × (length result ≡ 3) }
{
    let rest = rank / Rank::POINTS;
    let func = Rank::FUNCS - 1 - rest % Rank::FUNCS;
    let point = Rank::POINTS - 1 - rank % Rank::POINTS;
    let cost = rest / Rank::FUNCS / Rank::SAVES;
    [func as u32, point as u32, cost as u32]
}

// Puts the lines of these ranks.
fn put_ranks<S: Sink>(out: &mut S, ranks: &[u64])
    requires { Printable ranks.now × (S.end out.old + length (list_text ranks.now) ≤ S.room out.old) }
    ensures { S.Puts (list_text ranks.now) out.old out.new }
{
    for rank in ranks {
        print::put_line(out, b"(dear", &rank_numbers(*rank));
    }
}

// How many bytes the lines of these ranks have.
pub fn list_length(ranks: &[u64]) -> usize
    requires { Printable ranks.now }
    ensures { (result ≡ length (list_text ranks.now)) × (result ≤ most_list) }
{
    let mut lines = Counter { count: 0 };
    put_ranks(&mut lines, ranks);
    lines.count
}

// Writes them over the first bytes of the output, and returns how many they are.
pub fn put_list(output: &mut [u8], ranks: &[u64]) -> usize
    requires { Printable ranks.now × (length (list_text ranks.now) ≤ length output.old) }
    ensures { (result ≡ length (list_text ranks.now)) × (output.new ≡ over (list_text ranks.now) output.old) }
{
    let mut lines = Writer {
        out: output,
        end: 0,
    };
    put_ranks(&mut lines, ranks);
    lines.end
}
