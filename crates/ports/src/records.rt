ghost use Rattle.std.specs.Prelude.{◌≡◌, refl};
ghost use Rattle.ports.specs.Records.{record_of, records_of, values_of, one};
ghost use Rattle.ports.specs.Laws.{one_costs};

use crate::lent::{Element, LentStrip, fill};
use crate::strip::StripFull;
use vocabulary::value::Plain;

// A value as a record: sort 0 is a number, sort 1 a truth, which is 0 or 1. The sort stays a number, since C lays the
// record out so.
#[repr(C)]
#[derive(Clone, Copy)]
pub struct OutRecord {
    pub sort: u8,
    pub number: i32,
}

impl From<Plain> for OutRecord {
    ghost from_gives = { λ value r. r ≡ record_of value };

    fn from(value: Plain) -> OutRecord {
        match value {
            Plain::Number(number) => OutRecord { sort: 0, number },
            Plain::Truth(truth) => OutRecord {
                sort: 1,
                number: truth.into(),
            },
        }
    }
}

impl Element for OutRecord {
    ghost written = { records_of };

    ghost said = { values_of };

    ghost nothing_written = { refl };

    ghost nothing_said = { refl };

    ghost price = { one };

    ghost costs = { one_costs };

    fn write(value: Plain, free: &mut [OutRecord]) -> Result<usize, StripFull> {
        fill(&[value.into()], free)
    }
}

// A strip that fills records of the caller's memory.
pub type RecordStrip<'a> = LentStrip<'a, OutRecord>;
