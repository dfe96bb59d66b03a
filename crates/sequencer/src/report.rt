ghost use Rattle.std.specs.Prelude.{◌≡◌};
ghost use Rattle.sequencer.specs.Reports.{report_of, has_ended, end_in, node_in, code_in};

use machine::tables::{Ran, Status};
use std::fmt;
use vocabulary::end::End;

// The end of a take, and the node at which it came.
#[derive(Clone, Copy, PartialEq, Eq, Debug)]
pub struct Stop {
    pub end: End,
    pub node: u16,
}

// What run and report answer: the end, if the take has ended, and the steps of the take.
#[derive(Clone, Copy, PartialEq, Eq, Debug)]
pub struct Report {
    pub stop: Option<Stop>,
    pub steps: u32,
}

// The end is carried whole into the report.
impl From<Ran> for Report {
    ghost from_gives = { λ ran report. report ≡ report_of ran.status ran.steps };

    fn from(ran: Ran) -> Report {
        match ran.status {
            Status::Halted(end, node) => Report {
                stop: Some(Stop { end, node }),
                steps: ran.steps,
            },
            Status::Running | Status::Broken => Report {
                stop: None,
                steps: ran.steps,
            },
        }
    }
}

// The answer in numbers: end, node and code are 0 until the take has ended.
impl Report {
    pub fn ended(self) -> bool
        ensures { result ≡ has_ended self }
    {
        self.stop.is_some()
    }

    pub fn end(self) -> u8
        ensures { result ≡ end_in self }
    {
        self.stop.map_or(0, |stop| stop.end.number())
    }

    pub fn node(self) -> u16
        ensures { result ≡ node_in self }
    {
        self.stop.map_or(0, |stop| stop.node)
    }

    pub fn code(self) -> u8
        ensures { result ≡ code_in self }
    {
        self.stop.map_or(0, |stop| stop.end.code())
    }
}

impl fmt::Display for Report {
    fn fmt<W: fmt::Write>(&self, f: &mut fmt::Formatter<W>) -> fmt::Result {
        let steps = self.steps;
        match self.stop {
            Some(stop) => {
                let number = stop.end.number();
                let node = stop.node;
                let end = stop.end;
                write!(
                    f,
                    "ended after {steps} steps with end {number} at node {node}: {end}"
                )
            }
            None => write!(f, "not ended after {steps} steps"),
        }
    }
}
