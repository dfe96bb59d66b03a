// Whole sessions, from their lines to what they print.
use crate::plan::{Plan, Session};
use crate::show::{InNumbers, answers_in_numbers, answers_in_words};
use crate::whole::{printout, session_text};
use session::Answer;
use std::fmt;
use std::test::Fail;
use vocabulary::refusal::{Cause, Refusal};

// The session that these lines plan.
fn session_of(rt: &HostRuntime, lines: &[&str]) -> Result<Session, Fail> {
    let mut plan = Plan::new(rt.alloc());
    for line in lines {
        plan.read(rt.alloc(), line.as_bytes())?;
    }
    Ok(plan.finish().ok_or("feed or strip is wanting")?)
}

// What that session prints, as a text.
fn text_of<D: fmt::Display + Drop, F: Fn(Answer) -> D>(
    rt: &HostRuntime,
    lines: &[&str],
    shown: F,
) -> Result<String, Fail>
    requires { F.IsAlwaysCallable shown }
{
    let session = session_of(rt, lines)?;
    Ok(session_text(rt.alloc(), &session, shown)?)
}

// The README's session, of a table that puts 7.
#[test]
fn puts_seven(rt: HostRuntime) -> Result<(), Fail> {
    let lines = [
        "feed trace 5",
        "strip text 16",
        "load 14000000070000000200000000000000",
        "run 3",
        "run 1",
    ];
    assert_eq!(rt;
        text_of(&rt, &lines, |answer| answer)?.as_str(),
        "done
not ended after 3 steps
ended after 4 steps with end 0 at node 1: the program is done
feed 5
held 7
space 14
text 370a
"
    );
    Ok(())
}

// A ramp that nobody reads, and a call that is refused.
#[test]
fn leaves_a_ramp(rt: HostRuntime) -> Result<(), Fail> {
    let lines = ["feed ramp 1 2 3", "strip records 4", "report"];
    assert_eq!(rt;
        text_of(&rt, &lines, InNumbers)?.as_str(),
        "refused 1 0\nfeed 1 3 5\nheld\nspace 4\n"
    );
    Ok(())
}

// A ramp that is refused, and the value that is printed of it.
#[test]
fn refuses_a_ramp(rt: HostRuntime) -> Result<(), Fail> {
    let lines = ["feed ramp 2147483647 1 2", "strip text 4", "report"];
    let session = session_of(&rt, &lines)?;
    let page = printout(rt.alloc(), &session, InNumbers)?;
    assert_eq!(rt;
        format!(in rt.alloc(); "{page}")?.as_str(),
        "refused 16 0\n"
    );
    Ok(())
}

// Answers alone, in numbers and as sentences.
#[test]
fn shows_answers(rt: HostRuntime) -> Result<(), Fail> {
    let refusal = Refusal {
        cause: Cause::NoProgram,
        node: 0,
    };
    let answers = [Answer::Done, Answer::Refused(refusal)];
    assert_eq!(rt;
        answers_in_numbers(rt.alloc(), &answers)?.as_str(),
        "done\nrefused 1 0\n"
    );
    assert_eq!(rt;
        answers_in_words(rt.alloc(), &answers)?.as_str(),
        "done\nrefused (1): no program is loaded\n"
    );
    Ok(())
}
