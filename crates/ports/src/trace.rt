ghost use Rattle.std.specs.Prelude.{◌≡◌, length};
ghost use Rattle.ports.specs.Laws.{items-lawful};
ghost use Rattle.ports.specs.Traces.{item_of, items_of};

use crate::feed::Feed;
use vocabulary::item::{Fault, Item};

// What was recorded at one moment: a reading where the code is 0, and else the fault of that code. The number stays a
// number, since C lays the record out so.
#[repr(C)]
#[derive(Clone, Copy)]
pub struct Record {
    pub code: u8,
    pub reading: i32,
}

impl From<Record> for Item {
    ghost from_gives = { λ r item. item ≡ item_of r };

    fn from(record: Record) -> Item {
        match record.code {
            0 => Item::Reading(record.reading),
            code => Item::Fault(Fault { code }),
        }
    }
}

// A feed over records in the caller's memory: those that are left.
#[derive(Drop)]
pub struct Trace<'a> {
    left: &'a [Record],
}

impl<'a> Trace<'a> {
    pub fn new(records: &'a [Record]) -> Trace<'a>
        ensures { result.left.now ≡ records.now }
    {
        Trace { left: records }
    }

    // How many records are left.
    pub fn left(&self) -> usize
        ensures { result ≡ length (items_of self.now.left.now) }
    {
        self.left.len()
    }
}

impl<'a> Feed for Trace<'a> {
    ghost waiting = { λ trace. items_of trace.left.now };

    ghost lawful = { λ trace. items-lawful trace.left.now };

    fn take(&mut self) -> Option<Item> {
        let [first, left @ ..] = self.left else {
            return None;
        };
        self.left = left;
        Some((*first).into())
    }
}
