ghost use Rattle.std.specs.Prelude.{◌≡◌, true, length, reverse};
ghost use Rattle.machine.specs.Links.{nested, reach};

use crate::environment::Bindings;
use crate::tables::Frame;
use vocabulary::table::Table;
use vocabulary::value::{Plain, Value};

// The values that wait, the cells, the bindings with the present environment, the dump, and the position of the next word. No
// heap: each table has its 512 places in the machine. What it means as lists is `seen` of specs/Seen.antt.
#[derive(Drop)]
pub struct Machine {
    pub(crate) values: Table<Value, 512>,
    pub(crate) cells: Table<Plain, 512>,
    pub(crate) bindings: Bindings,
    pub(crate) frames: Table<Frame, 512>,
    pub(crate) position: usize,
    ghost inner: { nested (length bindings.entries) (reach bindings.env) (reverse frames) ≡ true },
}
