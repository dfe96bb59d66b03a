// The program `small`. Without arguments it shows one program from start to end; `small session` carries out a session.
#![tactic(auto)]

mod listing;
mod sessions;

use anyhow::anyhow;
use listing::print_page;
use planned::demonstration::demonstrate;
use planned::show::InNumbers;
use sessions::run_session;
use std::env;
use std::process::ExitCode;

const USAGE: &str = "usage:
  small                    shows a countdown from 2, from its table to its end
  small session            carries out the session on standard input, an answer a line
  small session --words    the same, each answer as a sentence
  small help               prints this

a session, '#' begins a comment:
  feed trace 5 22 fault:3 -1    or    feed ramp START STEP COUNT
  strip records N               or    strip text N
  then calls, a line each: load HEX, open HEX ('-' for no bytes), rewind, run FUEL, report";

fn command(rt: &HostRuntime, words: &[&str]) -> anyhow::Result<()> {
    match words {
        [] => demonstrate(rt, print_page),
        ["session"] => run_session(rt, InNumbers),
        ["session", "--words"] => run_session(rt, |answer| answer),
        ["help"] => Ok(rt.println(USAGE)?),
        _ => {
            rt.eprintln("error: no such command")?;
            rt.eprintln(USAGE)?;
            Err(anyhow!("no such command"))
        }
    }
}

// What stopped a command was said where it was met, so an error gives a status and no second message.
fn main(rt: HostRuntime) -> anyhow::Result<ExitCode> {
    let given: Vec<String> = env::args(&rt)?.skip(1).collect(rt.alloc())?;
    let words = given
        .iter()
        .map(|word| word.as_str())
        .collect::<Vec<&str>>(rt.alloc())?;
    match command(&rt, words.as_slice()) {
        Ok(()) => Ok(ExitCode::SUCCESS),
        Err(_said) => Ok(ExitCode::FAILURE),
    }
}
