// The plan of a session: one feed and one strip, and then calls.
ghost use Rattle.std.specs.Prelude.{◌≡◌, Some, MatchOption, MatchResult};
ghost use Rattle.notation.specs.declared.error.ReadError.TheVariants.{Memory};
ghost use Rattle.notation.specs.declared.plan.Line.TheVariants.{Call};
ghost use Rattle.planned.specs.declared.plan.PlanError.TheVariants.{Line as BadLine};
ghost use Rattle.planned.specs.Plans.{Adds, Finishes, Reads, nothing_planned, planned};

use notation::error::ReadError;
use notation::line::read_line;
use notation::plan::{CallPlan, FeedPlan, Line, StripPlan};
use std::alloc::{AllocFailed, Global};
use thiserror::Error;

// What the lines so far have planned.
#[derive(Drop)]
pub struct Plan {
    pub feed: Option<FeedPlan>,
    pub strip: Option<StripPlan>,
    pub calls: Vec<CallPlan>,
}

// A session whose lines have all been taken in.
#[derive(Drop)]
pub struct Session {
    pub feed: FeedPlan,
    pub strip: StripPlan,
    pub calls: Vec<CallPlan>,
}

// Why a line has no place in a plan.
#[derive(Clone, Copy, Debug, PartialEq, Eq, Error)]
pub enum PlanError {
    // the line cannot be read
    #[error("{0}")]
    Line(ReadError),
    #[error("there is a feed line already: a session has one")]
    SecondFeed,
    #[error("there is a strip line already: a session has one")]
    SecondStrip,
    // a call before feed and strip
    #[error("a feed line and a strip line come before the calls")]
    CallTooEarly,
}

// `From` by hand: the one that thiserror writes has no contract, and the clauses tell the errors apart.
impl From<ReadError> for PlanError {
    ghost from_gives = { λ error e. e ≡ BadLine error };

    fn from(error: ReadError) -> PlanError {
        PlanError::Line(error)
    }
}

impl<T: Drop> From<AllocFailed<T>> for PlanError {
    ghost from_gives = { λ _ e. e ≡ BadLine Memory };

    fn from(_e: AllocFailed<T>) -> PlanError {
        PlanError::Line(ReadError::Memory)
    }
}

// Fills a place that is empty; a second value is refused.
fn fill<T: Drop>(place: &mut Option<T>, value: T, second: PlanError) -> Result<(), PlanError>
    ensures { MatchOption place.old ((result ≡ Ok tt) × (place.new ≡ Some value)) (λ x. (result ≡ Err second) × (place.new ≡ place.old)) }
{
    match place {
        Some(_) => Err(second),
        None => {
            *place = Some(value);
            Ok(())
        }
    }
}

impl Plan {
    pub fn new(heap: Global) -> Plan
        ensures { planned result ≡ nothing_planned }
    {
        Plan {
            feed: None,
            strip: None,
            calls: Vec::new(heap),
        }
    }

    fn add_call(&mut self, call: CallPlan) -> Result<(), PlanError>
        ensures { Adds (Call call) (planned self.old) (planned self.new) result }
    {
        let (Some(_), Some(_)) = (&self.feed, &self.strip) else {
            return Err(PlanError::CallTooEarly);
        };
        self.calls.push(call)?;
        Ok(())
    }

    // Takes in what a line says.
    pub fn add(&mut self, line: Line) -> Result<(), PlanError>
        ensures { Adds line (planned self.old) (planned self.new) result }
    {
        match line {
            Line::Feed(feed) => fill(&mut self.feed, feed, PlanError::SecondFeed),
            Line::Strip(strip) => fill(&mut self.strip, strip, PlanError::SecondStrip),
            Line::Call(call) => self.add_call(call),
        }
    }

    // Takes in a line of text.
    pub fn read(&mut self, heap: Global, text: &[u8]) -> Result<(), PlanError>
        ensures { Reads text.now (planned self.old) (planned self.new) result }
    {
        match read_line(heap, text)? {
            Some(line) => self.add(line),
            None => Ok(()),
        }
    }

    // The session, once there are a feed and a strip.
    pub fn finish(self) -> Option<Session>
        ensures { Finishes (planned self) result }
    {
        let Plan { feed, strip, calls } = self;
        Some(Session {
            feed: feed?,
            strip: strip?,
            calls,
        })
    }
}
