// What a trial works on: a sequencer, and memory for its sheets.
use crate::plan::Step;
use crate::show::{print_code, print_sum};
use anyhow::anyhow;
use notation::plan::CallPlan;
use planned::show::{BytesLine, InNumbers};
use ports::feed::Feed;
use ports::strip::Strip;
use sequencer::state::Sequencer;
use session::Answer;
use sheet::half::HalfSheet;
use std::alloc::Global;
use std::io;
use vocabulary::refusal::Refusal;

// What fresh memory holds, so that a byte that is not written shows.
const FRESH: u8 = 255;

#[derive(Drop)]
pub struct Bench {
    sequencer: Sequencer,
    memory: Vec<u8>,
    half: Option<HalfSheet>,
}

fn print_refusal(rt: &HostRuntime, refusal: Refusal) -> io::Result<()> {
    rt.println(InNumbers(Answer::Refused(refusal)))
}

// What finish and archive answer: the length of the sheet.
fn print_length(rt: &HostRuntime, answer: Result<usize, Refusal>) -> io::Result<()> {
    match answer {
        Ok(length) => println!(rt; "length {length}"),
        Err(refusal) => print_refusal(rt, refusal),
    }
}

// Changes some bits of one byte; twice the same change is none.
fn flip(bytes: &mut [u8], at: usize, change: u8) {
    if let Some(byte) = bytes.get_mut(at) {
        *byte ^= change;
    }
}

impl Bench {
    pub fn new(heap: Global) -> Bench {
        Bench {
            sequencer: Sequencer::new(),
            memory: Vec::new(heap),
            half: None,
        }
    }

    // Carries out a call of the sequencer. The trials try the single calls, so they do not go through `session`, whose `act` is private.
    fn answer<F: Feed, S: Strip>(&mut self, call: &CallPlan, feed: &mut F, strip: &mut S) -> Answer
        ensures kept { S.Strip.keeps strip.old strip.new }
    {
        match call {
            CallPlan::Load(table) => self.sequencer.load(table.as_slice()).into(),
            CallPlan::Open(sheet) => self.sequencer.open(sheet.as_slice()).into(),
            CallPlan::Rewind => self.sequencer.rewind().into(),
            CallPlan::Run(fuel) => self.sequencer.run(*fuel, feed, strip).into(),
            CallPlan::Report => self.sequencer.report().into(),
        }
    }

    // Carries out a step, and prints its answer if it has one.
    pub fn take<F: Feed, S: Strip>(
        &mut self,
        rt: &HostRuntime,
        step: &Step,
        feed: &mut F,
        strip: &mut S,
    ) -> anyhow::Result<()>
        ensures kept { S.Strip.keeps strip.old strip.new }
    {
        match step {
            Step::Call(call) => rt.println(InNumbers(self.answer(call, feed, strip)))?,
            Step::Code => print_code(rt, self.sequencer.code())?,
            Step::Sum => print_sum(rt, self.sequencer.nodes(), self.sequencer.code())?,
            Step::Paper(size) => self.memory = vec![in rt.alloc(); FRESH; *size]?,
            Step::Start => self.start(rt)?,
            Step::Finish => self.finish(rt)?,
            Step::Archive => {
                let length = self.sequencer.archive(self.memory.as_mut_slice());
                print_length(rt, length)?
            }
            Step::Poke(at, value) => {
                let byte = self.memory.get_mut(*at);
                *byte.ok_or(anyhow!("there is no such byte"))? = *value
            }
            Step::Look => self.look(rt)?,
            Step::Flips(sheet) => self.flips(rt, sheet.as_slice())?,
        }
        Ok(())
    }

    fn look(&self, rt: &HostRuntime) -> io::Result<()> {
        rt.print(BytesLine {
            word: "memory",
            bytes: self.memory.as_slice(),
        })
    }

    // Whether a sheet with this change of one byte is refused; the change is taken back.
    fn refuses(&mut self, sheet: &mut [u8], at: usize, change: u8) -> bool {
        flip(sheet, at, change);
        let opened = self.sequencer.open(sheet);
        flip(sheet, at, change);
        opened.is_err()
    }

    // Prints how many of the sheets that differ from this one in one byte are refused, and how many there are, neither of which counts
    // past 32 bits. Two ranges, since the same copy is changed at a place and changed back: an iterator over its bytes would hold it.
    fn flips(&mut self, rt: &HostRuntime, sheet: &[u8]) -> anyhow::Result<()> {
        let mut copy = sheet.to_vec(rt.alloc())?;
        let mut refused = 0u32;
        for at in 0..sheet.len() {
            for change in 1..=u8::MAX {
                if self.refuses(copy.as_mut_slice(), at, change) {
                    refused = refused.saturating_add(1);
                }
            }
        }
        let tried = u32::try_from(sheet.len().saturating_mul(255)).unwrap_or(u32::MAX);
        println!(rt; "flips {refused} {tried}")?;
        Ok(())
    }

    fn start(&mut self, rt: &HostRuntime) -> io::Result<()> {
        match self.sequencer.start(self.memory.as_mut_slice()) {
            Ok(half) => {
                self.half = Some(half);
                rt.println("half")
            }
            Err(refusal) => print_refusal(rt, refusal),
        }
    }

    // A refusal hands the half sheet back.
    fn finish(&mut self, rt: &HostRuntime) -> anyhow::Result<()> {
        let half = self.half.take().ok_or(anyhow!("there is no half sheet"))?;
        let length = self
            .sequencer
            .finish(self.memory.as_mut_slice(), half)
            .map_err(|(refusal, half)| {
                self.half = Some(half);
                refusal
            });
        print_length(rt, length)?;
        Ok(())
    }
}
