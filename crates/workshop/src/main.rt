// The program `workshop`: checks, lists, archives and runs measuring programs. Without arguments it shows one program from
// start to end.
#![tactic(auto)]

mod advice;
mod archive;
mod files;
mod list;
mod options;
mod run;
mod sessions;
mod sheet_advice;
mod stop;
mod verdict;
mod visible;
mod words;

use archive::write_sheet_of;
use files::FileKind;
use list::{list, print_page};
use planned::demonstration::demonstrate;
use planned::show::InNumbers;
use run::run;
use sessions::run_session;
use std::env;
use std::process::ExitCode;
use stop::{Stop, print_stop};
use verdict::judge;

const USAGE: &str = "workshop: a proved sequencer for measuring programs

  workshop                       shows a countdown from 2, from its table to its end
  workshop check TABLE           says whether a table is accepted, and if not, why
  workshop list FILE             prints the tree and the code of a table or a sheet
  workshop sheet TABLE SHEET     writes the archive sheet of a table
  workshop open SHEET            says whether a sheet is accepted, and if not, why
  workshop run FILE [OPTIONS]    runs a table or a sheet, and prints what took place
  workshop session [--words]     carries out the session on standard input, an answer a line
  workshop help                  prints this

options of run, with what holds without them:
  --feed 'trace'              the feed, as in a session: 'trace 5 22 fault:3 -1' or 'ramp START STEP COUNT'
  --strip 'text 65536'        the strip, as in a session: 'text BYTES' or 'records COUNT'
  --fuel 1000000000           the most steps
  --session                   prints the session that does the same, and does not run

a session, in which '#' begins a comment: a feed line and a strip line,
  feed trace 5 22 fault:3 -1    or    feed ramp START STEP COUNT
  strip text BYTES              or    strip records COUNT
and then calls, a line each: load HEX, open HEX ('-' for no bytes), rewind, run FUEL, report

The status is 0 where the command was carried out, and 1 where it was refused.";

fn carry_out(rt: &HostRuntime, words: &[&str]) -> Result<(), Stop> {
    match words {
        [] => demonstrate(rt, print_page),
        ["check", table] => judge(rt, *table, FileKind::Table),
        ["list", file] => list(rt, *file),
        ["sheet", table, sheet] => write_sheet_of(rt, *table, *sheet),
        ["open", sheet] => judge(rt, *sheet, FileKind::Sheet),
        ["run", file, options @ ..] => run(rt, *file, options),
        ["session"] => run_session(rt, InNumbers),
        ["session", "--words"] => run_session(rt, |answer| answer),
        ["help"] | ["--help"] | ["-h"] => Ok(rt.println(USAGE)?),
        [command, ..] => {
            let word = *command;
            let message = format!(in rt.alloc();
                "there is no command '{word}' with these arguments; 'workshop help' lists the commands"
            )?;
            Err(Stop::Message(message))
        }
    }
}

fn main(rt: HostRuntime) -> anyhow::Result<ExitCode> {
    let given: Vec<String> = env::args(&rt)?.skip(1).collect(rt.alloc())?;
    let words = given
        .iter()
        .map(|word| word.as_str())
        .collect::<Vec<&str>>(rt.alloc())?;
    match carry_out(&rt, words.as_slice()) {
        Ok(()) => Ok(ExitCode::SUCCESS),
        Err(stop) => {
            print_stop(&rt, stop)?;
            Ok(ExitCode::FAILURE)
        }
    }
}
