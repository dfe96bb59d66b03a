// Reading what stands behind the first words of a line.
ghost use Rattle.std.specs.Prelude.{[], ◌∷◌, codes, IfErr, MatchResult};
ghost use Rattle.notation.specs.Errors.{BytesError, FeedError, LineError, NumberError, RampError, StripError, TooMany};
ghost use Rattle.notation.specs.Lines.{ReadsBehind, ReadsBytes, ReadsNumber, spoken, spoken_feed, spoken_strip};
ghost use Rattle.notation.specs.Words.{Words};

use crate::error::{ReadError, Wanted};
use crate::hex::read_hex;
use crate::number::{read_digits, read_signed};
use crate::plan::{CallPlan, FeedPlan, Line, StripPlan};
use crate::trace::read_trace;
use crate::word::next_word;
use std::alloc::Global;

// No word is left.
fn end_of_line(rest: &[u8]) -> Result<(), ReadError>
    ensures end { MatchResult result (λ _. Words rest.now []) (λ _. Words rest.now [] → ⊥) }
    ensures fault { IfErr result (TooMany rest.now) }
{
    let (word, _) = next_word(rest);
    if word.is_empty() {
        Ok(())
    } else {
        Err(ReadError::TooManyWords)
    }
}

// The bytes that the only word gives.
fn last_bytes(heap: Global, rest: &[u8], wanted: Wanted) -> Result<Vec<u8>, ReadError>
    ensures bytes { ReadsBytes rest.now result }
    ensures fault { IfErr result (BytesError wanted rest.now) }
{
    let (word, more) = next_word(rest);
    let bytes = read_hex(heap, word, wanted)?;
    end_of_line(more)?;
    Ok(bytes)
}

// The number that the only word stands for.
fn last_number(rest: &[u8], wanted: Wanted, most: u64) -> Result<u64, ReadError>
    ensures number { ReadsNumber most rest.now result }
    ensures fault { IfErr result (NumberError wanted most rest.now) }
{
    let (word, more) = next_word(rest);
    let number = read_digits(word, 0, most).map_err(|error| wanted.missed(error))?;
    end_of_line(more)?;
    Ok(number)
}

// The same of a number of elements.
fn last_size(rest: &[u8], wanted: Wanted) -> Result<usize, ReadError>
    ensures number { ReadsNumber 18446744073709551615 rest.now result }
    ensures fault { IfErr result (NumberError wanted 18446744073709551615 rest.now) }
{
    last_number(rest, wanted, usize::MAX as u64).map(|n| n as usize)
}

// What stands behind `feed ramp`.
fn read_ramp(rest: &[u8]) -> Result<FeedPlan, ReadError>
    ensures said { ReadsBehind spoken_feed (λ ws. codes "feed" ∷ codes "ramp" ∷ ws) rest.now result }
    ensures fault { IfErr result (RampError rest.now) }
{
    let (first, second_on) = next_word(rest);
    let start = read_signed(first).map_err(|error| Wanted::Start.missed(error))?;
    let (second, third_on) = next_word(second_on);
    let step = read_signed(second).map_err(|error| Wanted::Step.missed(error))?;
    let count = last_number(third_on, Wanted::Count, u16::MAX as u64)? as u16;
    Ok(FeedPlan::Ramp { start, step, count })
}

// What stands behind `feed`.
fn read_feed(heap: Global, rest: &[u8]) -> Result<FeedPlan, ReadError>
    ensures said { ReadsBehind spoken_feed (λ ws. codes "feed" ∷ ws) rest.now result }
    ensures fault { IfErr result (FeedError rest.now) }
{
    let (kind, more) = next_word(rest);
    match kind {
        b"trace" => read_trace(heap, more).map(FeedPlan::Trace),
        b"ramp" => read_ramp(more),
        _ => Err(ReadError::UnknownFeed),
    }
}

// What stands behind `strip`.
fn read_strip(rest: &[u8]) -> Result<StripPlan, ReadError>
    ensures said { ReadsBehind spoken_strip (λ ws. codes "strip" ∷ ws) rest.now result }
    ensures fault { IfErr result (StripError rest.now) }
{
    let (kind, more) = next_word(rest);
    match kind {
        b"records" => last_size(more, Wanted::RecordCount).map(StripPlan::Records),
        b"text" => last_size(more, Wanted::ByteCount).map(StripPlan::Text),
        _ => Err(ReadError::UnknownStrip),
    }
}

// What stands behind any first word.
pub fn read_behind(heap: Global, verb: &[u8], rest: &[u8]) -> Result<Line, ReadError>
    ensures said { ReadsBehind spoken (λ ws. verb.now ∷ ws) rest.now result }
    ensures fault { IfErr result (LineError verb.now rest.now) }
{
    match verb {
        b"feed" => read_feed(heap, rest).map(Line::Feed),
        b"strip" => read_strip(rest).map(Line::Strip),
        b"load" => last_bytes(heap, rest, Wanted::Table)
            .map(CallPlan::Load)
            .map(Line::Call),
        b"open" => last_bytes(heap, rest, Wanted::Sheet)
            .map(CallPlan::Open)
            .map(Line::Call),
        b"rewind" => end_of_line(rest).map(|()| Line::Call(CallPlan::Rewind)),
        b"run" => last_number(rest, Wanted::Fuel, u32::MAX as u64)
            .map(|fuel| CallPlan::Run(fuel as u32))
            .map(Line::Call),
        b"report" => end_of_line(rest).map(|()| Line::Call(CallPlan::Report)),
        _ => Err(ReadError::UnknownLine),
    }
}
