// Copies readings from a feed to a strip. It is written once for all feeds and strips, and shows what a user of a strip
// over its own memory learns of that memory.
ghost use Rattle.std.specs.Prelude.{◌≡◌, [], length};
ghost use Rattle.ports.specs.declared.copy.Stop.TheVariants.{Fault as Faulted};
ghost use Rattle.ports.specs.Copies.{Onto, outcome, copied};

use crate::feed::Feed;
use crate::lent::{Element, LentStrip};
use crate::strip::Strip;
use vocabulary::item::{Fault, Item};
use vocabulary::value::Plain;

// Why a copy stopped before it had copied as many readings as were asked for.
#[derive(Clone, Copy, PartialEq, Eq, Debug)]
pub enum Stop {
    // no item was left
    Empty,
    // this fault came
    Fault(Fault),
    // the strip had no room for this reading
    Full(i32),
}

impl From<Fault> for Stop {
    ghost from_gives = { λ fault stop. stop ≡ Faulted fault };

    fn from(fault: Fault) -> Stop {
        Stop::Fault(fault)
    }
}

// Copies at most `limit` readings, and answers what kept it from copying all of them.
pub fn copy<F: Feed, S: Strip>(feed: &mut F, strip: &mut S, limit: usize) -> Result<(), Stop>
    ensures copied { outcome (F.Feed.waiting feed.new) (S.Strip.held strip.new) (S.Strip.space strip.new) result ≡ copied S.Strip.price limit (F.Feed.waiting feed.old) (S.Strip.held strip.old) (S.Strip.space strip.old) }
    ensures kept { S.Strip.keeps strip.old strip.new }
{
    for _done in 0..limit {
        match feed.take().ok_or(Stop::Empty)? {
            Item::Fault(fault) => return Err(fault.into()),
            Item::Reading(reading) => strip
                .put(Plain::Number(reading))
                .map_err(|_| Stop::Full(reading))?,
        }
    }
    Ok(())
}

// Copies into the caller's memory: as records, or as text.
pub fn copy_into<F: Feed, T: Element>(
    feed: &mut F,
    memory: &mut [T],
    limit: usize,
) -> Result<(), Stop>
    ensures { Onto T.Element.written (copied T.Element.price limit (F.Feed.waiting feed.old) [] (length memory.old)) memory.old memory.new (F.Feed.waiting feed.new) result }
{
    let mut strip = LentStrip::new(memory);
    copy(feed, &mut strip, limit)
}
