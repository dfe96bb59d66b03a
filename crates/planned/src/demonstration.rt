// One program from start to end: a countdown from 2.
use ports::feed::Feed;
use ports::strip::Strip;
use ports::text::TextStrip;
use ports::trace::{Record, Trace};
use sequencer::state::Sequencer;
use session::Answer;
use std::io;

// variable 1 is 2; while 0 < 1: output 1, then 1 := 1 - one.
const COUNTDOWN: [u8; 120] = [
    // node 0: number 2; 1: variable 1; 2: number 0; 3: name 1; 4: less
    20, 0, 0, 0, 2, 0, 0, 0, //
    11, 1, 0, 0, 0, 0, 0, 0, //
    20, 0, 0, 0, 0, 0, 0, 0, //
    23, 1, 0, 0, 0, 0, 0, 0, //
    24, 6, 2, 0, 3, 0, 0, 0, //
    // 5: name 1; 6: output
    23, 1, 0, 0, 0, 0, 0, 0, //
    2, 0, 5, 0, 0, 0, 0, 0, //
    // 7: name 1; 8: name 1; 9: number 1; 10: difference; 11: assign
    23, 1, 0, 0, 0, 0, 0, 0, //
    23, 1, 0, 0, 0, 0, 0, 0, //
    20, 0, 0, 0, 1, 0, 0, 0, //
    24, 2, 8, 0, 9, 0, 0, 0, //
    1, 0, 7, 0, 10, 0, 0, 0, //
    // 12: sequence; 13: while; 14: block
    6, 0, 6, 0, 11, 0, 0, 0, //
    4, 0, 4, 0, 12, 0, 0, 0, //
    5, 0, 1, 0, 13, 0, 0, 0,
];

// Runs what is loaded, first with one step's fuel too little, and then to its end.
fn run_in_two<F: Feed, S: Strip>(
    rt: &HostRuntime,
    sequencer: &mut Sequencer,
    feed: &mut F,
    strip: &mut S,
) -> io::Result<()> {
    println!(rt; "run 52: {}", Answer::from(sequencer.run(52, feed, strip)))?;
    println!(rt; "run 1: {}", Answer::from(sequencer.run(1, feed, strip)))?;
    println!(rt; "report: {}", Answer::from(sequencer.report()))
}

// Shows the countdown; the program that was loaded is listed as `list` prints it.
pub fn demonstrate<E: From<io::Error>, L: FnOnce(&HostRuntime, &Sequencer) -> Result<(), E>>(
    rt: &HostRuntime,
    list: L,
) -> Result<(), E>
    requires { L.IsAlwaysCallable list }
{
    let mut sequencer = Sequencer::new();
    rt.println("A countdown from 2: a table of 120 bytes.")?;
    if let Err(refusal) = sequencer.load(&COUNTDOWN) {
        println!(rt; "load: {refusal}")?;
        return Ok(());
    }
    rt.println("load: done\n")?;
    list(rt, &sequencer)?;
    rt.println("\nOver a trace of one reading, onto a text strip of 16 bytes")?;
    let records = [Record {
        code: 0,
        reading: 5,
    }];
    let mut feed = Trace::new(&records);
    let mut memory = [0u8; 16];
    let used = {
        let mut strip = TextStrip::new(&mut memory);
        run_in_two(rt, &mut sequencer, &mut feed, &mut strip)?;
        strip.used()
    };
    println!(rt; "strip: {used} of 16 bytes")?;
    rt.stdout().write_all(&memory[0..used.min(16)])?;
    rt.println(match feed.take() {
        Some(_) => "feed: the reading still waits",
        None => "feed: empty",
    })?;
    Ok(())
}
