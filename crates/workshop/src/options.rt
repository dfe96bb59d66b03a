// The options of `workshop run`. By hand, since the library `clap` refuses a word in other words than these, which users know.
use crate::stop::{Stop, stopped};
use notation::line::read_line;
use notation::plan::{FeedPlan, Line, StripPlan};
use sequencer::fuel::TAKE_FUEL;

// How a program is run, in the words that were given or, without any, the words here.
#[derive(Clone, Copy)]
pub struct Options<'a> {
    pub feed: &'a str,
    pub strip: &'a str,
    pub fuel: u32,
    // no enum: the one option without a value, and it is given or not
    pub as_session: bool,
}

fn fuel_in(rt: &HostRuntime, word: &str) -> Result<u32, Stop> {
    match word.parse::<u32>() {
        Ok(fuel) if fuel <= TAKE_FUEL => Ok(fuel),
        _ => stopped(
            rt,
            format_args!("--fuel wants a number, 0 to {TAKE_FUEL}, and not '{word}'"),
        ),
    }
}

// Reads options, each a word with its value behind it.
pub fn options_in<'a>(rt: &HostRuntime, words: &[&'a str]) -> Result<Options<'a>, Stop> {
    let mut options = Options {
        feed: "trace",
        strip: "text 65536",
        fuel: TAKE_FUEL,
        as_session: false,
    };
    let mut rest = words;
    loop {
        rest = match rest {
            [] => return Ok(options),
            ["--session", more @ ..] => {
                options.as_session = true;
                more
            }
            ["--feed", value, more @ ..] => {
                options.feed = *value;
                more
            }
            ["--strip", value, more @ ..] => {
                options.strip = *value;
                more
            }
            ["--fuel", value, more @ ..] => {
                options.fuel = fuel_in(rt, *value)?;
                more
            }
            [word, ..] => {
                return stopped(
                    rt,
                    format_args!(
                        "run does not know '{word}', or a value is missing behind it; it knows --feed WORDS, --strip WORDS, --fuel N and --session"
                    ),
                );
            }
        };
    }
}

// What a line of a session plans that begins with this word.
fn planned(rt: &HostRuntime, word: &str, said: &str) -> Result<Option<Line>, Stop> {
    let text = format!(in rt.alloc(); "{word} {said}")?;
    match read_line(rt.alloc(), text.as_bytes()) {
        Ok(line) => Ok(line),
        Err(error) => stopped(rt, format_args!("--{word} '{said}': {error}")),
    }
}

impl Options<'_> {
    pub fn feed_plan(&self, rt: &HostRuntime) -> Result<FeedPlan, Stop> {
        match planned(rt, "feed", self.feed)? {
            Some(Line::Feed(feed)) => Ok(feed),
            _ => stopped(rt, "--feed wants a feed, as 'trace 5 22' or 'ramp 0 1 100'"),
        }
    }

    pub fn strip_plan(&self, rt: &HostRuntime) -> Result<StripPlan, Stop> {
        match planned(rt, "strip", self.strip)? {
            Some(Line::Strip(strip)) => Ok(strip),
            _ => stopped(rt, "--strip wants a strip, as 'text 4096' or 'records 100'"),
        }
    }
}
