// A session from standard input: all of it is read before anything is carried out.
use anyhow::anyhow;
use notation::error::ReadError;
use planned::input::read_session;
use planned::plan::{Plan, PlanError};
use planned::whole::printout;
use script::read::{line_of, words_of};
use session::Answer;
use std::alloc::Global;
use std::fmt;

// Takes in a line of text. `small` says of a second feed or strip, and of want of memory, what it always has, in other words than the
// plan.
fn take(heap: Global, plan: &mut Plan, text: &str) -> anyhow::Result<()> {
    let words = words_of(heap, text)?;
    if words.is_empty() {
        return Ok(());
    }
    let line = line_of(heap, words.as_slice())?;
    plan.add(line).map_err(|error| match error {
        PlanError::SecondFeed => anyhow!("there is a feed already"),
        PlanError::SecondStrip => anyhow!("there is a strip already"),
        PlanError::Line(ReadError::Memory) => anyhow!("memory allocation failed"),
        other => anyhow::Error::from(other),
    })
}

// Each answer is printed as `shown` shows it.
pub fn run_session<D: fmt::Display + Drop, F: Fn(Answer) -> D>(
    rt: &HostRuntime,
    shown: F,
) -> anyhow::Result<()>
    requires { F.IsAlwaysCallable shown }
{
    let heap = rt.alloc();
    let session = read_session(
        rt,
        |plan, text| take(heap, plan, text),
        "error: a session has a feed line and a strip line",
    )?
    .ok_or(anyhow!("there is no session"))?;
    rt.print(printout(heap, &session, shown)?)?;
    Ok(())
}
