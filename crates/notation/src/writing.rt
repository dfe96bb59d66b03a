// Plans print as the lines that say them.
ghost use Rattle.std.specs.Prelude.{◌≡◌, Some, ◌∷◌, map, decimal};
ghost use Rattle.std.specs.List.{flat_map};
ghost use Rattle.ports.specs.Traces.{item_of, items_of};
ghost use Rattle.notation.specs.Lines.{item_word, line_text, spoken, spoken_call, spoken_feed, spoken_strip};

use crate::hex::Hex;
use crate::plan::{CallPlan, FeedPlan, Line, StripPlan};
use crate::trace::AsWord;
use ports::trace::Record;
use std::fmt;
use vocabulary::item::Item;

// Records that print as the words of their items, each behind a blank.
#[derive(Clone, Copy)]
struct Items<'a>(&'a [Record]);

impl fmt::Display for Items<'_> {
    ghost output = { λ i. Some (flat_map (λ w. 32 ∷ w) (map item_word (items_of i.0.now))) };

    fn fmt<W: fmt::Write>(&self, f: &mut fmt::Formatter<W>) -> fmt::Result {
        for record in self.0 {
            let word = AsWord(Item::from(*record));
            write!(f, " {word}")?;
        }
        Ok(())
    }
}

impl fmt::Display for FeedPlan {
    ghost output = { λ plan. Some (line_text (spoken_feed plan)) };

    fn fmt<W: fmt::Write>(&self, f: &mut fmt::Formatter<W>) -> fmt::Result {
        match self {
            FeedPlan::Trace(records) => {
                let items = Items(records.as_slice());
                write!(f, "feed trace{items}")
            }
            FeedPlan::Ramp { start, step, count } => {
                write!(f, "feed ramp {start} {step} {count}")
            }
        }
    }
}

impl fmt::Display for StripPlan {
    ghost output = { λ plan. Some (line_text (spoken_strip plan)) };

    fn fmt<W: fmt::Write>(&self, f: &mut fmt::Formatter<W>) -> fmt::Result {
        match self {
            StripPlan::Records(records) => write!(f, "strip records {records}"),
            StripPlan::Text(bytes) => write!(f, "strip text {bytes}"),
        }
    }
}

impl fmt::Display for CallPlan {
    ghost output = { λ plan. Some (line_text (spoken_call plan)) };

    fn fmt<W: fmt::Write>(&self, f: &mut fmt::Formatter<W>) -> fmt::Result {
        match self {
            CallPlan::Load(table) => {
                let hex = Hex(table.as_slice());
                write!(f, "load {hex}")
            }
            CallPlan::Open(sheet) => {
                let hex = Hex(sheet.as_slice());
                write!(f, "open {hex}")
            }
            CallPlan::Rewind => f.write_str("rewind"),
            CallPlan::Run(fuel) => write!(f, "run {fuel}"),
            CallPlan::Report => f.write_str("report"),
        }
    }
}

impl fmt::Display for Line {
    ghost output = { λ line. Some (line_text (spoken line)) };

    fn fmt<W: fmt::Write>(&self, f: &mut fmt::Formatter<W>) -> fmt::Result {
        match self {
            Line::Feed(plan) => write!(f, "{plan}"),
            Line::Strip(plan) => write!(f, "{plan}"),
            Line::Call(plan) => write!(f, "{plan}"),
        }
    }
}
