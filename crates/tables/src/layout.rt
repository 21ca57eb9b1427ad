// Where each part of the working space begins, and each table and column in it. A part begins where the one before it ends, and so does each of its
// tables and columns: one of the points has a number for each point, counted over all functions, one of the functions a number for each function.
use model::Limits;

// The tables of a task. The kinds of the points begin at 0; behind them are the arguments of the points, then frame, first point and size of the functions.
#[derive(Clone, Copy)]
pub struct Layout;

impl Layout {
    pub const FIRST: usize = Limits::IN_ALL;

    pub const SECOND: usize = Layout::FIRST + Limits::IN_ALL;

    pub const FRAME: usize = Layout::SECOND + Limits::IN_ALL;

    pub const BASE: usize = Layout::FRAME + Limits::FUNCS;

    pub const SIZE: usize = Layout::BASE + Limits::FUNCS;
    // The numbers that all tables take.
    pub const LENGTH: usize = Layout::SIZE + Limits::FUNCS;
}

// The columns of figures: first those of the points, then those of the functions.
#[derive(Clone, Copy)]
pub struct Columns;

impl Columns {
    pub const HIGH: usize = Layout::LENGTH;

    pub const DEAD: usize = Columns::HIGH + Limits::IN_ALL;

    pub const NEED: usize = Columns::DEAD + Limits::IN_ALL;

    pub const NEXT: usize = Columns::NEED + Limits::IN_ALL;

    pub const FILL: usize = Columns::NEXT + Limits::IN_ALL;

    pub const LONGEST: usize = Columns::FILL + Limits::IN_ALL;

    pub const SHORTEST: usize = Columns::LONGEST + Limits::FUNCS;

    pub const ENTRY: usize = Columns::SHORTEST + Limits::FUNCS;

    pub const CHAIN: usize = Columns::ENTRY + Limits::FUNCS;

    pub const LEVEL: usize = Columns::CHAIN + Limits::FUNCS;
    // The numbers that the tables and all columns take.
    pub const END: usize = Columns::LEVEL + Limits::FUNCS;
    // How many columns are of the points: the first ones.
    pub const OF_POINTS: usize = 5;
}

// What the sheet allows in a run: cost and fill of the points, spill of the functions.
#[derive(Clone, Copy)]
pub struct Bounds;

impl Bounds {
    pub const COST: usize = Columns::END;

    pub const FILL: usize = Bounds::COST + Limits::IN_ALL;

    pub const SPILL: usize = Bounds::FILL + Limits::IN_ALL;
    // The numbers that the tables and all columns take, these too.
    pub const END: usize = Bounds::SPILL + Limits::FUNCS;
}

// The callers of a run: two numbers for each, its function and its point.
#[derive(Clone, Copy)]
pub struct Frames;

impl Frames {
    pub const AT: usize = Bounds::END;
}
