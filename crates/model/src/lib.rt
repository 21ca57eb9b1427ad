// The declared types of the kit: what a line, a point, a refusal and a result can be. Nothing runs here; the definitions are in specs/.
#![tactic(auto)]

// The limits of a task text, and the lengths that bound the buffers.
#[derive(Clone, Copy)]
pub struct Limits;

impl Limits {
    // Cache blocks.
    pub const STACK: u32 = 64;

    pub const FUNCS: usize = 64;
    // Points of one function, and of all together.
    pub const POINTS: usize = 256;

    pub const IN_ALL: usize = 1024;
    // Bytes of a text.
    pub const BYTES: usize = 32768;
    // Numbers of the working space that a service uses.
    pub const WORK: usize = 16384;
    // Numbers of an event list, two for each event.
    pub const EVENT_NUMBERS: usize = 131072;
    // The price of a move: its start, and each of its blocks.
    pub const START: u32 = 255;

    pub const EACH: u32 = 255;
    // Points in the list of the dearest.
    pub const DEAREST: usize = 10;
}

// A point of a function. Offsets, callees, frame sizes and targets are numbers of the text.
#[derive(Clone, Copy)]
pub enum Point {
    Load(u32),
    Store(u32),
    Call(u32),
    Ensure(u32),
    Goto(u32),
    Either(u32, u32),
    Return,
}

// A line of a task text, decoded by itself.
#[derive(Clone, Copy)]
pub enum Line {
    Stack(u32),
    Func(u32),
    At(Point),
    Close,
    // No allowed form, or no line feed.
    Malformed,
}

// A row of the table of refusals, with its number. specs/Rows.antt says the same number of each.
#[derive(Clone, Copy)]
pub enum Row {
    WorkTooSmall = 15,
    PriceRange = 23,
    TextTooLong = 1,
    Form = 2,
    StackSize = 3,
    FrameSize = 4,
    Offset = 5,
    TooMany = 6,
    Callee = 7,
    Pairing = 8,
    Target = 9,
    LastPoint = 10,
    Unreachable = 11,
    Uncalled = 12,
    Uninitialised = 13,
    OutputTooSmall = 14,
    EventList = 16,
    AnswersTooSmall = 17,
    CacheSize = 18,
    MemoryTooSmall = 19,
    AfterFinish = 22,
    Kind = 20,
    Choice = 21,
}

// Why a service refuses: the row that is met, and its place. That is a line, counted from 1; an event, counted from 0; a length, a number of
// events or of blocks that would do; or 0.
#[derive(Clone, Copy)]
pub struct Refusal {
    pub row: Row,
    pub place: u32,
}

// What check says of a text and the lent buffers.
pub type Verdict = Result<(), Refusal>;

// What a service that writes bytes returns beside the buffers: how many bytes it wrote.
pub type Written = Result<u32, Refusal>;

// How a core evicts: blocks are written back whenever they leave the cache, or only those below a lazy pointer.
#[derive(Clone, Copy)]
pub enum Eviction {
    Eager,
    Lazy,
}

// How a run ends: an enum of its own and no Result, which is a form that document 01 names.
#[derive(Clone, Copy)]
pub enum Ending {
    AllDone,
    Refused(Refusal),
}

// What run returns beside the buffers.
#[derive(Clone, Copy)]
pub struct RunResult {
    pub ending: Ending,
    pub done: u32,
    pub moved: u64,
    pub allowed: u64,
}
