ghost use Rattle.std.specs.Prelude.{◌≡◌};
ghost use Rattle.machine.specs.Instructions.{read, put};
ghost use Rattle.machine.specs.Seen.{seen, after};
ghost use Rattle.machine.specs.State.Fed.{fed};
ghost use Rattle.machine.specs.State.Spent.{spent};

use crate::state::Machine;
use crate::tables::Stop;
use ports::feed::Feed;
use ports::strip::Strip;
use vocabulary::end::End;
use vocabulary::item::Item;
use vocabulary::value::{Plain, Value};

impl Machine {
    // Pushes a reading; a fault is carried whole into the end.
    pub(crate) fn read<F: Feed>(&mut self, feed: &mut F) -> Result<(), Stop>
        ensures { fed (after result (seen self.new)) (F.Feed.waiting feed.new) ≡ read 512 (F.Feed.waiting feed.old) (seen self.old) }
    {
        // A match, since `feed.take().ok_or(End::Empty)?` costs a loop of reads and puts two fifths more time.
        match feed.take() {
            None => Err(End::Empty.into()),
            Some(Item::Reading(number)) => self.push(Value::Plain(Plain::Number(number))),
            Some(Item::Fault(fault)) => Err(End::from(fault).into()),
        }
    }

    // Pops a plain value onto the strip.
    pub(crate) fn put<S: Strip>(&mut self, strip: &mut S) -> Result<(), Stop>
        ensures answer { spent (after result (seen self.new)) (S.Strip.held strip.new) (S.Strip.space strip.new) ≡ put S.Strip.price (seen self.old).values (seen self.old) (S.Strip.held strip.old) (S.Strip.space strip.old) }
        ensures kept { S.Strip.keeps strip.old strip.new }
    {
        let Value::Plain(plain) = self.pop()? else {
            return Err(Stop::Stuck);
        };
        strip.put(plain)?;
        Ok(())
    }
}
