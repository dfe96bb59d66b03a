// `workshop run`: a table or a sheet, run to its end or until the fuel is spent, by the proved session.
use crate::files::Given;
use crate::options::options_in;
use crate::stop::{Stop, stopped};
use crate::verdict::{InWords, counts_of};
use notation::plan::CallPlan;
use planned::carry::{CarryError, Filled, Left, Outcome};
use planned::plan::Session;
use planned::show::{AsValue, push_items};
use planned::whole::carry_out_session;
use sequencer::fuel::RUN_FUEL;
use sequencer::report::Report;
use sequencer::state::Sequencer;
use session::Answer;
use std::alloc::{AllocError, Global};
use std::io;

// The calls: the program, runs until the fuel is granted, and a report.
fn calls(heap: Global, program: CallPlan, fuel: u32) -> Result<Vec<CallPlan>, AllocError> {
    let mut calls = vec![in heap; program]?;
    for _ in 0..fuel / RUN_FUEL {
        calls.push(CallPlan::Run(RUN_FUEL))?;
    }
    let rest = fuel % RUN_FUEL;
    if rest > 0 || fuel == 0 {
        calls.push(CallPlan::Run(rest))?;
    }
    calls.push(CallPlan::Report)?;
    Ok(calls)
}

fn report_in(answers: &[Answer]) -> Option<Report> {
    match answers.last() {
        Some(Answer::Told(report)) => Some(*report),
        _ => None,
    }
}

fn print_strip(rt: &HostRuntime, left: &Left) -> io::Result<()> {
    let space = left.space;
    match &left.filled {
        Filled::Records(records) => {
            let used = records.len();
            println!(rt; "strip: records, {used} filled and {space} free")?;
            for record in records.as_slice() {
                rt.println(AsValue(*record))?;
            }
            Ok(())
        }
        Filled::Text(bytes) => {
            let used = bytes.len();
            println!(rt; "strip: text, {used} bytes filled and {space} free")?;
            rt.stdout().write_all(bytes.as_slice())
        }
    }
}

fn print_feed(rt: &HostRuntime, left: &Left) -> io::Result<()> {
    let mut items = String::new(rt.alloc());
    push_items(&mut items, left.items.as_slice())?;
    match left.items.len() {
        0 => rt.println("feed: empty"),
        1 => println!(rt; "feed: 1 item left:{items}"),
        count => println!(rt; "feed: {count} items left:{items}"),
    }
}

fn print_outcome(rt: &HostRuntime, outcome: &Outcome<Vec<Answer>>) -> io::Result<()> {
    match report_in(outcome.answer.as_slice()) {
        Some(report) if report.ended() => println!(rt; "run: {report}")?,
        Some(report) => println!(rt; "run: {report}, when the fuel was spent; --fuel grants more")?,
        None => (),
    }
    print_strip(rt, &outcome.left)?;
    print_feed(rt, &outcome.left)
}

// The session that does what a run does, as text.
fn print_session(rt: &HostRuntime, session: &Session) -> io::Result<()> {
    let feed = &session.feed;
    let strip = session.strip;
    println!(rt; "{feed}\n{strip}")?;
    for call in session.calls.as_slice() {
        println!(rt; "{call}")?;
    }
    Ok(())
}

pub fn run(rt: &HostRuntime, path: &str, words: &[&str]) -> Result<(), Stop> {
    let options = options_in(rt, words)?;
    let feed = options.feed_plan(rt)?;
    let strip = options.strip_plan(rt)?;
    let given = Given::read(rt, path)?;
    let form = given.form;
    let mut sequencer = Sequencer::new();
    given.accept(rt, &mut sequencer)?;
    let calls = calls(rt.alloc(), given.into_call(), options.fuel)?;
    let session = Session { feed, strip, calls };
    if options.as_session {
        return Ok(print_session(rt, &session)?);
    }
    match carry_out_session(rt.alloc(), &session) {
        Ok(outcome) => {
            let counts = InWords(counts_of(&sequencer));
            println!(rt; "program: {path}, a {form}: {counts}")?;
            Ok(print_outcome(rt, &outcome)?)
        }
        Err(CarryError::Refused(refusal)) => stopped(rt, format_args!("--feed: {refusal}")),
        Err(CarryError::Failed(error)) => Err(error.into()),
    }
}
