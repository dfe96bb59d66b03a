ghost use Rattle.std.specs.Prelude.{◌≡◌, Some};
ghost use Rattle.sheet.specs.Writing.{archive_answer, archive_memory};

use crate::contents::Contents;
use vocabulary::refusal::Refusal;

impl Contents<'_> {
    // Writes a whole sheet: a start and a finish, with nothing between them.
    pub fn write(&self, memory: &mut [u8]) -> Result<usize, Refusal>
        ensures answer { result ≡ archive_answer (Some self.now) memory.old }
        ensures memory { memory.new ≡ archive_memory (Some self.now) memory.old }
    {
        let half = self.start(memory)?;
        self.finish(memory, half).map_err(|(refusal, _)| refusal)
    }
}
