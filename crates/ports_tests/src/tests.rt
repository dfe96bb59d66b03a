use ports::copy::{Stop, copy_into};
use ports::feed::Feed;
use ports::ramp::Ramp;
use ports::records::{OutRecord, RecordStrip};
use ports::strip::{Strip, StripFull};
use ports::text::TextStrip;
use ports::trace::{Record, Trace};
use std::process::Abort;
use vocabulary::item::{Fault, Item};
use vocabulary::refusal::{Cause, Refusal};
use vocabulary::value::Plain;

// A value fits into memory as long as its line, which is then that line, and not into one byte less, which then stays.
fn writes_in(rt: &impl Abort, memory: &mut [u8], value: Plain, line: &[u8]) {
    let length = line.len();
    assert!(rt; 1 <= length && length <= memory.len());
    assert_eq!(rt;
        TextStrip::new(&mut memory[0..length - 1]).put(value),
        Err(StripFull)
    );
    assert_eq!(rt; memory[length - 1], b'.');
    assert_eq!(rt; memory[0], b'.');
    assert_eq!(rt; TextStrip::new(&mut memory[0..length]).put(value), Ok(()));
    assert_eq!(rt; &memory[0..length], line);
}

fn writes(rt: &impl Abort, value: Plain, line: &[u8]) {
    writes_in(rt, &mut [b'.'; 12], value, line);
}

#[test]
fn text_of_each_value(rt: HostRuntime) {
    writes(&rt, Plain::Number(0), b"0\n");
    writes(&rt, Plain::Number(7), b"7\n");
    writes(&rt, Plain::Number(-7), b"-7\n");
    writes(&rt, Plain::Number(2147483647), b"2147483647\n");
    writes(&rt, Plain::Number(-2147483648), b"-2147483648\n");
    writes(&rt, Plain::Truth(true), b"true\n");
    writes(&rt, Plain::Truth(false), b"false\n");
}

// Two records hold two values; the third value finds no room, and the memory behind the strip stays.
#[test]
fn records_of_each_value(rt: HostRuntime) {
    let blank = OutRecord { sort: 9, number: 9 };
    let mut memory = [blank, blank, blank];
    let mut strip = RecordStrip::new(&mut memory[0..2]);
    assert_eq!(rt; strip.put(Plain::Number(-7)), Ok(()));
    assert_eq!(rt; strip.put(Plain::Truth(true)), Ok(()));
    assert_eq!(rt; strip.put(Plain::Truth(false)), Err(StripFull));
    assert_eq!(rt; strip.used(), 2);
    for (filled, sort, number) in [(memory[0], 0, -7), (memory[1], 1, 1), (memory[2], 9, 9)] {
        assert_eq!(rt; (filled.sort, filled.number), (sort, number));
    }
}

// What was recorded at one moment, as a trace has it.
fn record(code: u8, reading: i32) -> Record {
    Record { code, reading }
}

#[test]
fn trace_with_faults(rt: HostRuntime) {
    let records = [record(0, 5), record(1, 6), record(255, 0), record(0, -7)];
    let mut trace = Trace::new(&records);
    for expected in [
        Some(Item::Reading(5)),
        Some(Item::Fault(Fault { code: 1 })),
        Some(Item::Fault(Fault { code: 255 })),
        Some(Item::Reading(-7)),
        None,
        None,
    ] {
        assert_eq!(rt; trace.take(), expected);
    }
}

// How many readings a ramp has, and its last.
fn readings(start: i32, step: i32, count: u16) -> Result<(u32, Option<i32>), Refusal> {
    let mut ramp = Ramp::new(start, step, count)?;
    let mut last = None;
    for taken in 0..65536u32 {
        match ramp.take() {
            Some(Item::Reading(reading)) => last = Some(reading),
            Some(Item::Fault(_)) | None => return Ok((taken, last)),
        }
    }
    Ok((65536, last))
}

#[test]
fn ramps_at_the_edges(rt: HostRuntime) {
    let least = -2147483648;
    let most = 2147483647;
    let refused = Err(Cause::RampRange.into());
    for (start, step, count, expected) in [
        (most, 1, 0, Ok((0, None))),
        (most, most, 1, Ok((1, Some(2147483647)))),
        (least, least, 1, Ok((1, Some(-2147483648)))),
        (2147483646, 1, 2, Ok((2, Some(2147483647)))),
        (most, 1, 2, refused),
        (-2147483647, -1, 2, Ok((2, Some(-2147483648)))),
        (least, -1, 2, refused),
        (1, 32769, 65535, Ok((65535, Some(2147483647)))),
        (2, 32769, 65535, refused),
        (-2, -32769, 65535, Ok((65535, Some(-2147483648)))),
        (-3, -32769, 65535, refused),
    ] {
        assert_eq!(rt; readings(start, step, count), expected);
    }
}

#[test]
fn copies_until_a_fault(rt: HostRuntime) {
    let records = [record(0, 5), record(0, -7), record(3, 0), record(0, 9)];
    let mut trace = Trace::new(&records);
    let mut bytes = [b'.'; 8];
    assert_eq!(rt;
        copy_into(&mut trace, &mut bytes, 9),
        Err(Stop::Fault(Fault { code: 3 }))
    );
    assert_eq!(rt; &bytes, b"5\n-7\n...");
    assert_eq!(rt; trace.take(), Some(Item::Reading(9)));
}
