// The shortest feed and the shortest strip that one can write: a feed of one reading, and a strip for one value.
ghost use Rattle.ports.specs.Laws.{one_costs};
ghost use Rattle.ports.specs.Records.{one};
ghost use Rattle.ports_tests.specs.Own.{item_in, item_lawful, value_in, places_in};

use ports::feed::Feed;
use ports::strip::{Strip, StripFull};
use vocabulary::item::Item;
use vocabulary::value::Plain;

#[derive(Drop)]
pub struct Once {
    pub reading: Option<i32>,
}

impl Feed for Once {
    ghost waiting = { λ once. item_in once.reading };

    ghost lawful = { λ once. item_lawful once.reading };

    fn take(&mut self) -> Option<Item> {
        let reading = self.reading.take()?;
        Some(Item::Reading(reading))
    }
}

#[derive(Drop)]
pub struct Slot {
    pub value: Option<Plain>,
}

impl Strip for Slot {
    ghost held = { λ slot. value_in slot.value };

    ghost space = { λ slot. places_in slot.value };

    ghost price = { one };

    ghost costs = { one_costs };

    ghost keeps = { λ s t. Unit {0} };

    ghost stays = { λ s. tt };

    ghost goes = { λ s t u h k. tt };

    fn put(&mut self, value: Plain) -> Result<(), StripFull> {
        if self.value.is_some() {
            return Err(StripFull);
        }
        self.value = Some(value);
        Ok(())
    }
}
