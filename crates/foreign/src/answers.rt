// What the calls answer, as C has it: refusals, ends and codes are numbers here, since C reads them. A refusal's number and node are 0
// where the call is accepted; everything else is 0 where it is refused.
ghost use Rattle.std.specs.Prelude.{◌≡◌};
ghost use Rattle.foreign.specs.Answers.{checked_of, written_of, outcome_of};

use sequencer::report::Report;
use vocabulary::refusal::Refusal;

// A table or a sheet is accepted, or refused.
#[repr(C)]
#[derive(Clone, Copy)]
pub struct Checked {
    pub refusal: u8,
    pub node: u16,
}

// A sheet was written, of this many bytes.
#[repr(C)]
#[derive(Clone, Copy)]
pub struct Written {
    pub refusal: u8,
    pub node: u16,
    pub length: usize,
}

// How a take stands: `node` is that of the refusal, or that of the end. `left` counts the samples not taken, `filled` what is
// filled of the memory.
#[repr(C)]
#[derive(Clone, Copy)]
pub struct Outcome {
    pub refusal: u8,
    pub ended: bool,
    pub end: u8,
    pub code: u8,
    pub node: u16,
    pub steps: u32,
    pub left: usize,
    pub filled: usize,
}

impl<T: Drop> From<Result<T, Refusal>> for Checked {
    ghost from_gives = { λ res checked. checked ≡ checked_of res };

    fn from(res: Result<T, Refusal>) -> Checked {
        match res {
            Ok(_) => Checked {
                refusal: 0,
                node: 0,
            },
            Err(refusal) => Checked {
                refusal: refusal.cause.number(),
                node: refusal.node,
            },
        }
    }
}

impl From<Result<usize, Refusal>> for Written {
    ghost from_gives = { λ res written. written ≡ written_of res };

    fn from(res: Result<usize, Refusal>) -> Written {
        match res {
            Ok(length) => Written {
                refusal: 0,
                node: 0,
                length,
            },
            Err(refusal) => Written {
                refusal: refusal.cause.number(),
                node: refusal.node,
                length: 0,
            },
        }
    }
}

// What is left and filled is not known here.
impl From<Result<Report, Refusal>> for Outcome {
    ghost from_gives = { λ res outcome. outcome ≡ outcome_of res 0 0 };

    fn from(res: Result<Report, Refusal>) -> Outcome {
        match res {
            Ok(report) => Outcome {
                refusal: 0,
                ended: report.ended(),
                end: report.end(),
                code: report.code(),
                node: report.node(),
                steps: report.steps,
                left: 0,
                filled: 0,
            },
            Err(refusal) => Outcome {
                refusal: refusal.cause.number(),
                ended: false,
                end: 0,
                code: 0,
                node: refusal.node,
                steps: 0,
                left: 0,
                filled: 0,
            },
        }
    }
}
