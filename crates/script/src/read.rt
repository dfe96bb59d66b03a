// Reading lines.
use crate::error::ScriptError;
use notation::plan::{CallPlan, FeedPlan, Line, StripPlan};
use ports::trace::Record;
use std::alloc::{AllocError, Global};

fn hex_digit(byte: u8) -> Result<u8, ScriptError> {
    match byte {
        b'0'..=b'9' => Ok(byte - b'0'),
        b'a'..=b'f' => Ok(byte - b'a' + 10),
        _ => Err(ScriptError::NoHexDigit),
    }
}

// The bytes that a word gives in base 16; `-` gives none.
pub fn bytes_in(heap: Global, word: &str) -> Result<Vec<u8>, ScriptError> {
    let mut bytes = Vec::new(heap);
    if word == "-" {
        return Ok(bytes);
    }
    for digits in word.as_bytes().chunks(2) {
        let [high, low] = digits else {
            return Err(ScriptError::OddDigits);
        };
        bytes.push(hex_digit(*high)? << 4 | hex_digit(*low)?)?;
    }
    Ok(bytes)
}

// A reading, or a fault as `fault:3`.
fn record_in(word: &str) -> Result<Record, ScriptError> {
    let Some(digits) = word.strip_prefix("fault:") else {
        let reading = word.parse::<i32>()?;
        return Ok(Record { code: 0, reading });
    };
    match digits.parse::<u8>()? {
        0 => Err(ScriptError::FaultCode),
        code => Ok(Record { code, reading: 0 }),
    }
}

fn trace_in(heap: Global, words: &[&str]) -> Result<FeedPlan, ScriptError> {
    let records = words.iter().map(|word| record_in(*word)).try_collect(heap)?;
    Ok(FeedPlan::Trace(records))
}

fn ramp_in(start: &str, step: &str, count: &str) -> Result<FeedPlan, ScriptError> {
    let start = start.parse::<i32>()?;
    let step = step.parse::<i32>()?;
    let count = count.parse::<u16>()?;
    Ok(FeedPlan::Ramp { start, step, count })
}

// What the words of a line plan.
pub fn line_of(heap: Global, words: &[&str]) -> Result<Line, ScriptError> {
    Ok(match words {
        ["feed", "trace", items @ ..] => Line::Feed(trace_in(heap, items)?),
        ["feed", "ramp", start, step, count] => Line::Feed(ramp_in(*start, *step, *count)?),
        ["strip", "records", count] => Line::Strip(StripPlan::Records(count.parse::<usize>()?)),
        ["strip", "text", count] => Line::Strip(StripPlan::Text(count.parse::<usize>()?)),
        ["load", table] => Line::Call(CallPlan::Load(bytes_in(heap, *table)?)),
        ["open", sheet] => Line::Call(CallPlan::Open(bytes_in(heap, *sheet)?)),
        ["rewind"] => Line::Call(CallPlan::Rewind),
        ["run", fuel] => Line::Call(CallPlan::Run(fuel.parse::<u32>()?)),
        ["report"] => Line::Call(CallPlan::Report),
        _ => return Err(ScriptError::UnknownLine),
    })
}

// The words of a line; `#` begins a comment.
pub fn words_of(heap: Global, text: &str) -> Result<Vec<&str>, AllocError> {
    let said = text.split_once('#').map_or(text, |(before, _)| before);
    said.split_whitespace().collect(heap)
}
