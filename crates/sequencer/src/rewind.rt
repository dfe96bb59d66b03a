ghost use Rattle.sequencer.specs.Calls.{Rewound};

use crate::state::Sequencer;
use vocabulary::refusal::Refusal;

impl Sequencer {
    // Begins a take of the same program.
    pub fn rewind(&mut self) -> Result<(), Refusal>
        ensures { Rewound self.old self.new result }
    {
        self.program()?;
        self.take.restart();
        Ok(())
    }
}
