// What stands on standard input, as values.
use anyhow::anyhow;
use notation::plan::{CallPlan, FeedPlan, Line, StripPlan};
use std::alloc::Global;
use std::fmt;

// What is asked of the sequencer, and of the memory that sheets are written to. No table of functions: each step is read from text,
// and takes what stands behind its word.
#[derive(Drop)]
pub enum Step {
    Call(CallPlan),
    // the words of the code
    Code,
    // how many nodes and words there are, and a sum over both
    Sum,
    // so many bytes of fresh memory
    Paper(usize),
    Start,
    Finish,
    Archive,
    // another value for one byte of the memory
    Poke(usize, u8),
    // the bytes of the memory
    Look,
    // each sheet that differs from this one in one byte is opened
    Flips(Vec<u8>),
}

// What is tried: steps one by one, or calls as one session.
#[derive(Drop)]
pub enum Work {
    Steps(Vec<Step>),
    Session(Vec<CallPlan>),
}

// The word that begins such a trial.
impl fmt::Display for Work {
    fn fmt<W: fmt::Write>(&self, f: &mut fmt::Formatter<W>) -> fmt::Result {
        f.write_str(match self {
            Work::Steps(_) => "trial",
            Work::Session(_) => "session",
        })
    }
}

// A trial: work with a new sequencer, between one feed and one strip.
#[derive(Drop)]
pub struct Trial {
    pub name: String,
    pub feed: FeedPlan,
    pub strip: StripPlan,
    pub work: Work,
}

impl Trial {
    // A trial over an empty feed and a strip without space.
    pub fn new(heap: Global, name: String, work: Work) -> Trial {
        Trial {
            name,
            feed: FeedPlan::Trace(Vec::new(heap)),
            strip: StripPlan::Records(0),
            work,
        }
    }

    pub fn add_step(&mut self, step: Step) -> anyhow::Result<()> {
        match (&mut self.work, step) {
            (Work::Steps(steps), step) => Ok(steps.push(step)?),
            (Work::Session(calls), Step::Call(call)) => Ok(calls.push(call)?),
            (Work::Session(_), _) => Err(anyhow!("a session has calls only")),
        }
    }

    // Takes in a line that a session may have. Of feeds and strips the last counts.
    pub fn add_line(&mut self, line: Line) -> anyhow::Result<()> {
        match line {
            Line::Feed(feed) => self.feed = feed,
            Line::Strip(strip) => self.strip = strip,
            Line::Call(call) => self.add_step(Step::Call(call))?,
        }
        Ok(())
    }
}
