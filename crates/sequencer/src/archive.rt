ghost use Rattle.std.specs.Prelude.{◌≡◌};
ghost use Rattle.sheet.specs.Writing.{start_answer, start_memory, finish_answer, finish_memory, archive_answer, archive_memory};
ghost use Rattle.sequencer.specs.Model.{model};

use crate::state::Sequencer;
use sheet::half::HalfSheet;
use vocabulary::refusal::Refusal;

impl Sequencer {
    // Writes header and nodes of the program's sheet, and gives the half sheet that finish spends.
    pub fn start(&self, memory: &mut [u8]) -> Result<HalfSheet, Refusal>
        ensures answer { result ≡ start_answer (model self.now).program memory.old }
        ensures memory { memory.new ≡ start_memory (model self.now).program memory.old }
    {
        self.program()?.contents().start(memory)
    }

    // Writes the code and the full header, and answers the length of the sheet. A refusal hands the half sheet back.
    pub fn finish(&self, memory: &mut [u8], half: HalfSheet) -> Result<usize, (Refusal, HalfSheet)>
        ensures answer { result ≡ finish_answer (model self.now).program half memory.old }
        ensures memory { memory.new ≡ finish_memory (model self.now).program half memory.old }
    {
        match self.program() {
            Ok(program) => program.contents().finish(memory, half),
            Err(refusal) => Err((refusal, half)),
        }
    }

    // Start and finish in one: writes the program's sheet, and answers its length.
    pub fn archive(&self, memory: &mut [u8]) -> Result<usize, Refusal>
        ensures answer { result ≡ archive_answer (model self.now).program memory.old }
        ensures memory { memory.new ≡ archive_memory (model self.now).program memory.old }
    {
        self.program()?.contents().write(memory)
    }
}
