// The figures that stand in the columns, read back as one record: of a point, and of a function. What costs work to find has a column; what is a
// difference or a sum is computed here, where it is read.
#![tactic(auto)]

ghost use Rattle.std.specs.Prelude.{◌≡◌, ◌<◌};
ghost use Rattle.tables.specs.Tables.{size_at};
ghost use Rattle.readout.specs.Readable.{Readable, figured_of, func_figures};
ghost use Rattle.readout.specs.Unique.{readable_prop};

use columns::Columns;
use prices::Price;
use tables::Header;

// The sheet of the task that the tables in work hold, by the columns behind them and at this price.
#[derive(Clone, Copy)]
pub struct Sheet<'a> {
    pub work: &'a [u32],
    pub header: Header,
    pub price: Price,
    pub ghost readable: { Readable price work.now header } by { readable_prop price work.now header },
}

// All figures of a point.
#[derive(Clone, Copy)]
pub struct PointFigures {
    pub high: u32,
    pub dead: u32,
    pub need: u32,
    pub save: u32,
    pub reload: u32,
    pub later: u32,
    pub chain: u32,
    pub cost: u32,
    pub fill: u32,
}

// All figures of a function.
#[derive(Clone, Copy)]
pub struct FuncFigures {
    pub frame: u32,
    pub shortest: u32,
    pub longest: u32,
    pub spill: u32,
    pub chain: u32,
}

impl Sheet<'_> {
    ghost use Rattle.readout.specs.View.{sheet_of};

    // The figures of point p of function f.
    pub fn point(self, f: usize, p: usize) -> PointFigures
        requires { (f < self.header.funcs) × (p < size_at self.work.now f) }
        ensures { figured_of result ≡ (sheet_of self.entry).at f p }
    {
        let s = tables::span_at(self.work, f);
        let high = columns::figure_at(self.work, Columns::HIGH, s, p);
        let dead = columns::figure_at(self.work, Columns::DEAD, s, p);
        let need = columns::figure_at(self.work, Columns::NEED, s, p);
        let next = columns::figure_at(self.work, Columns::NEXT, s, p);
        let fill = columns::figure_at(self.work, Columns::FILL, s, p);
        let chain = self.work[Columns::CHAIN + f];
        let save = self.price.of_move(high.saturating_sub(dead));
        let reload = self.price.of_move(need.saturating_sub(dead));
        let later = self.price.of_move(next.saturating_sub(need));
        PointFigures {
            high,
            dead,
            need,
            save,
            reload,
            later,
            chain,
            cost: save + reload + later + chain,
            fill: self.price.of_move(fill),
        }
    }

    // The figures of function f.
    pub fn func(self, f: usize) -> FuncFigures
        requires { f < self.header.funcs }
        ensures { result ≡ func_figures self.entry.price self.entry.work.now self.entry.header f }
    {
        let frame = tables::span_at(self.work, f).frame;
        let caller = self.work[Columns::ENTRY + f] + frame;
        FuncFigures {
            frame,
            shortest: self.work[Columns::SHORTEST + f],
            longest: self.work[Columns::LONGEST + f],
            spill: self.price.of_move(caller.saturating_sub(self.header.stack)),
            chain: self.work[Columns::CHAIN + f],
        }
    }
}
