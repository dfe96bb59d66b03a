// A whole take: a table is loaded, and fuel is granted until it is all granted or the take has ended.
ghost use Rattle.std.specs.Prelude.{◌≡◌, ◌+◌, ◌≤◌, Ok};
ghost use Rattle.vocabulary.specs.World.{rules};
ghost use Rattle.machine.specs.Seen.{between};
ghost use Rattle.sequencer.specs.Calls.{program_verdict};
ghost use Rattle.sequencer.specs.Model.{model};
ghost use Rattle.foreign.specs.Calls.{Granted, Performs};

use ports::feed::Feed;
use ports::strip::Strip;
use sequencer::fuel::{RUN_FUEL, TAKE_FUEL};
use sequencer::report::Report;
use sequencer::state::Sequencer;
use vocabulary::refusal::{Cause, Refusal};

// Grants the fuel in runs, and what is over in a last one. A run is refused only when the take has ended, and then no fuel
// moves it, so that no more of it is granted.
fn grant_all<F: Feed, S: Strip>(sequencer: &mut Sequencer, fuel: u32, feed: &mut F, strip: &mut S)
    requires program { program_verdict (model sequencer.old) ≡ Ok tt }
    requires enough { (model sequencer.old).granted + fuel ≤ 1000000000 }
    ensures granted { Granted (rules S.Strip.price) fuel (model sequencer.old) (model sequencer.new) (between F.Feed S.Strip feed.old strip.old) (between F.Feed S.Strip feed.new strip.new) }
    ensures kept { S.Strip.keeps strip.old strip.new }
{
    for _run in 0..fuel / RUN_FUEL {
        match sequencer.run(RUN_FUEL, feed, strip) {
            Ok(_) => (),
            Err(_ended) => return,
        }
    }
    let _ = sequencer.run(fuel % RUN_FUEL, feed, strip);
}

// Loads a table and carries out a take of it.
pub(crate) fn perform<F: Feed, S: Strip>(
    table: &[u8],
    fuel: u32,
    feed: &mut F,
    strip: &mut S,
) -> Result<Report, Refusal>
    ensures performs { Performs (rules S.Strip.price) table.now fuel (between F.Feed S.Strip feed.old strip.old) (between F.Feed S.Strip feed.new strip.new) result }
    ensures kept { S.Strip.keeps strip.old strip.new }
{
    let mut sequencer = Sequencer::new();
    sequencer.load(table)?;
    if fuel > TAKE_FUEL {
        return Err(Cause::Fuel.into());
    }
    grant_all(&mut sequencer, fuel, feed, strip);
    sequencer.report()
}
