ghost use Rattle.std.specs.Prelude.{◌≡◌};
ghost use Rattle.machine.specs.Machine.{blank};
ghost use Rattle.machine.specs.Seen.{seen};

use crate::environment::Bindings;
use crate::state::Machine;
use crate::tables::Frame;
use vocabulary::table::Table;
use vocabulary::value::{Plain, Value};

impl Machine {
    // Nothing on any table, at position 0.
    #[tactic(auto, unfolding(crate::specs::Links::chain, crate::specs::Links::chains, crate::specs::Links::nested))]
    pub fn new() -> Machine
        ensures { seen result ≡ blank }
    {
        let plain = Plain::Truth(false);
        let frame = Frame {
            env: None,
            bound: 0,
            other: 0,
        };
        Machine {
            values: Table::new(Value::Plain(plain)),
            cells: Table::new(plain),
            bindings: Bindings::new(),
            frames: Table::new(frame),
            position: 0,
        }
    }

    // As if new, with no table written, where a `Machine::new` in its place would fill all four.
    #[tactic(auto, unfolding(crate::specs::Links::chain, crate::specs::Links::chains, crate::specs::Links::nested))]
    pub fn restart(&mut self)
        ensures { seen self.new ≡ blank }
    {
        self.values.clear();
        self.cells.clear();
        self.bindings.clear();
        self.frames.clear();
        self.position = 0;
    }
}
