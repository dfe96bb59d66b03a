ghost use Rattle.std.specs.Prelude.{List};
ghost use Rattle.vocabulary.specs.declared.item.Item.{Item};
ghost use Rattle.ports.specs.Feeds.{Lawful, Took};

use vocabulary::item::Item;

// A feed means the list of the items that wait in it.
pub trait Feed {
    ghost waiting: { Self → List Item };

    // No fault that waits has the code 0, so that each has one from 1 to 255.
    ghost lawful: { (feed : Self) → Lawful (waiting feed) };

    // The first item, which is removed; or none, where none waits, and then nothing changes.
    fn take(&mut self) -> Option<Item>
        ensures { Took (waiting self.old) (waiting self.new) result };
}
