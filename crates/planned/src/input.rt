// The lines of a session on standard input.
use crate::plan::{Plan, Session};
use std::io::{BufRead, BufReader};
use std::{fmt, io};

// A line that was not taken in: its number, counted from 1, what it says, and why.
#[derive(Drop)]
pub struct Untaken<E> {
    pub number: usize,
    pub text: String,
    pub error: E,
}

// Has `take` take all lines into `whole`, up to the first that has no place there.
pub fn take_lines<W, E: Drop, T: FnMut(&mut W, &str) -> Result<(), E>>(
    rt: &HostRuntime,
    whole: &mut W,
    mut take: T,
) -> io::Result<Option<Untaken<E>>>
    requires { T.IsAlwaysCallable take }
{
    for (place, text) in BufReader::new(rt.alloc(), rt.stdin())?
        .lines(rt.alloc())
        .enumerate()
    {
        let text = text?;
        if let Err(error) = take(whole, text.as_str()) {
            let number = place.saturating_add(1);
            return Ok(Some(Untaken {
                number,
                text,
                error,
            }));
        }
    }
    Ok(None)
}

// Reads a session, each line of which `take` takes in. Where there is none, standard error was told why: the number of a line and
// why it has no place, or these words where a feed line or a strip line is wanting.
pub fn read_session<E: fmt::Display + Drop, T: FnMut(&mut Plan, &str) -> Result<(), E>>(
    rt: &HostRuntime,
    take: T,
    wanting: &str,
) -> io::Result<Option<Session>>
    requires { T.IsAlwaysCallable take }
{
    let mut plan = Plan::new(rt.alloc());
    if let Some(Untaken { number, error, .. }) = take_lines(rt, &mut plan, take)? {
        eprintln!(rt; "error {number} {error}")?;
        return Ok(None);
    }
    let session = plan.finish();
    if session.is_none() {
        rt.eprintln(wanting)?;
    }
    Ok(session)
}
