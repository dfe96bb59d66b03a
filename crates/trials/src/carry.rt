// Carrying out a trial: one answer line a step.
use crate::bench::Bench;
use crate::plan::{Step, Trial, Work};
use planned::carry::{CarryError, Job, Outcome, carry_out};
use planned::plan::Session;
use planned::show::InNumbers;
use planned::whole::printout;
use ports::feed::Feed;
use ports::strip::Strip;
use session::Answer;

#[derive(Drop)]
struct Steps<'a> {
    rt: &'a HostRuntime,
    steps: &'a [Step],
}

// Steps one by one, by the single calls of a new sequencer.
impl Job for Steps<'_> {
    type Answer = ();

    type Error = anyhow::Error;

    // No contract speaks of a trial.
    ghost does = { λ job answer rules before after. Unit {0} };

    fn work<F: Feed, S: Strip>(&self, feed: &mut F, strip: &mut S) -> anyhow::Result<()> {
        let mut bench = Bench::new(self.rt.alloc());
        for step in self.steps {
            bench.take(self.rt, step, feed, strip)?;
        }
        Ok(())
    }
}

pub fn carry_out_trial(rt: &HostRuntime, trial: Trial) -> anyhow::Result<()> {
    let Trial {
        name,
        feed,
        strip,
        work,
    } = trial;
    println!(rt; "{work} {name}")?;
    let steps = match work {
        Work::Steps(steps) => steps,
        Work::Session(calls) => {
            let session = Session { feed, strip, calls };
            rt.print(printout(rt.alloc(), &session, InNumbers)?)?;
            return Ok(());
        }
    };
    let job = Steps {
        rt,
        steps: steps.as_slice(),
    };
    match carry_out(rt.alloc(), &job, &feed, strip) {
        Ok(Outcome { left, .. }) => rt.print(left)?,
        Err(CarryError::Refused(refusal)) => rt.println(InNumbers(Answer::Refused(refusal)))?,
        Err(CarryError::Failed(error)) => return Err(error),
    }
    Ok(())
}
