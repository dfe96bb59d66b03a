// Reading the lines of standard input.
use crate::plan::{Step, Work};
use notation::plan::Line;
use script::read::{bytes_in, line_of, words_of};
use std::alloc::Global;

// What a line with words says: it begins a trial of this name, or adds to one.
#[derive(Drop)]
pub enum Said {
    Begins(String, Work),
    Line(Line),
    Step(Step),
}

// A step that no session has.
fn step_of(heap: Global, words: &[&str]) -> anyhow::Result<Option<Step>> {
    Ok(match words {
        ["code"] => Some(Step::Code),
        ["sum"] => Some(Step::Sum),
        ["memory", size] => Some(Step::Paper(size.parse::<usize>()?)),
        ["start"] => Some(Step::Start),
        ["finish"] => Some(Step::Finish),
        ["archive"] => Some(Step::Archive),
        ["poke", at, value] => Some(Step::Poke(at.parse::<usize>()?, value.parse::<u8>()?)),
        ["look"] => Some(Step::Look),
        ["flips", sheet] => Some(Step::Flips(bytes_in(heap, *sheet)?)),
        _ => None,
    })
}

fn begins(heap: Global, name: &str, work: Work) -> anyhow::Result<Said> {
    Ok(Said::Begins(String::from_str(heap, name)?, work))
}

fn said_by(heap: Global, words: &[&str]) -> anyhow::Result<Said> {
    match words {
        ["trial", name] => begins(heap, *name, Work::Steps(Vec::new(heap))),
        ["session", name] => begins(heap, *name, Work::Session(Vec::new(heap))),
        _ => match step_of(heap, words)? {
            Some(step) => Ok(Said::Step(step)),
            None => Ok(Said::Line(line_of(heap, words)?)),
        },
    }
}

// Reads a line; one without words says nothing.
pub fn read_line(heap: Global, text: &str) -> anyhow::Result<Option<Said>> {
    let words = words_of(heap, text)?;
    if words.is_empty() {
        return Ok(None);
    }
    Ok(Some(said_by(heap, words.as_slice())?))
}
