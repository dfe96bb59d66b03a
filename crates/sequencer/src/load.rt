ghost use Rattle.sequencer.specs.Calls.{Loaded, Opened};

use crate::program::Program;
use crate::state::Sequencer;
use vocabulary::refusal::Refusal;

impl Sequencer {
    // Takes a table: replaces the program and begins a take of it.
    pub fn load(&mut self, table: &[u8]) -> Result<(), Refusal>
        ensures { Loaded table.now self.old self.new result }
    {
        let program = Program::accept(table)?;
        self.begin(program);
        Ok(())
    }

    // Takes a sheet: replaces the program and begins a take of it.
    pub fn open(&mut self, sheet: &[u8]) -> Result<(), Refusal>
        ensures { Opened sheet.now self.old self.new result }
    {
        let program = Program::accept_sheet(sheet)?;
        self.begin(program);
        Ok(())
    }
}
