// What lines of text plan, as values.
use ports::trace::Record;

// Where the readings come from.
#[derive(Drop)]
pub enum FeedPlan {
    Trace(Vec<Record>),
    Ramp { start: i32, step: i32, count: u16 },
}

// Where the values go: a strip over so many elements of fresh memory.
#[derive(Clone, Copy, Debug, PartialEq, Eq)]
pub enum StripPlan {
    Records(usize),
    Text(usize),
}

// A call, with its table or sheet.
#[derive(Drop)]
pub enum CallPlan {
    Load(Vec<u8>),
    Open(Vec<u8>),
    Rewind,
    Run(u32),
    Report,
}

// What a line with words plans.
#[derive(Drop)]
pub enum Line {
    Feed(FeedPlan),
    Strip(StripPlan),
    Call(CallPlan),
}
