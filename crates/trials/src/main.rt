// The program `trials`. It reads trials from standard input, carries each out by the calls of a new sequencer, and
// prints a line for each answer. reference/make_trials.py writes its input and, by an implementation of its own, what has
// to come out.
#![tactic(auto)]

mod bench;
mod carry;
mod plan;
mod read;
mod show;

use anyhow::anyhow;
use carry::carry_out_trial;
use plan::Trial;
use planned::input::{Untaken, take_lines};
use read::{Said, read_line};

fn begun(trial: &mut Option<Trial>) -> anyhow::Result<&mut Trial> {
    trial.as_mut().ok_or(anyhow!("no trial has begun"))
}

// A line that begins a trial has the one before carried out; any other adds to the trial.
fn take_line(rt: &HostRuntime, trial: &mut Option<Trial>, text: &str) -> anyhow::Result<()> {
    match read_line(rt.alloc(), text)? {
        None => Ok(()),
        Some(Said::Begins(name, work)) => {
            finish(rt, trial.replace(Trial::new(rt.alloc(), name, work)))
        }
        Some(Said::Line(line)) => begun(trial)?.add_line(line),
        Some(Said::Step(step)) => begun(trial)?.add_step(step),
    }
}

fn finish(rt: &HostRuntime, trial: Option<Trial>) -> anyhow::Result<()> {
    match trial {
        Some(trial) => carry_out_trial(rt, trial),
        None => Ok(()),
    }
}

fn run(rt: &HostRuntime) -> anyhow::Result<()> {
    let mut trial = None;
    let untaken = take_lines(rt, &mut trial, |trial, text| take_line(rt, trial, text))?;
    if let Some(
        Untaken {
            number,
            text,
            error,
        },
    ) = untaken
    {
        eprintln!(rt; "trials: cannot take line {number}: {text}")?;
        return Err(error);
    }
    finish(rt, trial)
}

fn main(rt: HostRuntime) -> anyhow::Result<()> {
    run(&rt)
}
