ghost use Rattle.std.specs.Prelude.{◌≡◌, ◌+◌, ◌-◌, ◌*◌, ◌^◌, ◌<◌, ◌≤◌, ◌++◌, length, take, drop, Some};
ghost use Rattle.sheet.specs.Layout.{code_bytes, header, size_of};
ghost use Rattle.sheet.specs.Sheets.{is_half, start_verdict, finish_verdict};
ghost use Rattle.sheet.specs.Writing.{half_sheet_of, start_answer, start_memory, finish_answer, finish_memory};

use crate::contents::Contents;
use crate::layout::{ENTRY, HEADER, header_bytes};
use crate::write::{entries_match, write_entries, write_header};
use vocabulary::code::Word;
use vocabulary::refusal::{Cause, Refusal};

// What `start` hands to `finish`: how many nodes it wrote, and where the code goes. Nobody else is given one, and `finish` spends it.
#[derive(PartialEq, Eq, Debug, Drop)]
pub struct HalfSheet {
    nodes: u16,
    code_at: u16,
}

// Writes the code behind the nodes, and the full header last: until then the memory holds no sheet that opens.
fn complete(code: &[Word], memory: &mut [u8], half: HalfSheet)
    requires start { 16 ≤ half.code_at }
    requires room { half.code_at + 8 * length code.now ≤ length memory.old }
    requires small { half.code_at + 8 * length code.now < 2 ^ 16 }
    ensures { memory.new ≡ header half.nodes (length code.now) half.code_at (half.code_at + 8 * length code.now)
        ++ (take (half.code_at - 16) (drop 16 memory.old)
        ++ (code_bytes code.now ++ drop (half.code_at + 8 * length code.now) memory.old)) }
{
    let HalfSheet { nodes, code_at } = half;
    let offset = code_at as usize;
    write_entries(&mut memory[offset..], code);
    let total = offset + ENTRY * code.len();
    write_header(
        memory,
        &header_bytes(nodes, code.len() as u16, code_at, total as u16),
    );
}

impl Contents<'_> {
    // The half sheet of these nodes.
    fn half(&self) -> HalfSheet
        ensures { result ≡ half_sheet_of self.now }
    {
        let counts = self.counts();
        HalfSheet {
            nodes: counts.nodes,
            code_at: counts.code_at() as u16,
        }
    }

    // Whether the memory has room for the finished sheet.
    fn check_room(&self, memory: &[u8]) -> Result<(), Refusal>
        ensures { result ≡ start_verdict (Some self.now) (length memory.now) }
    {
        if memory.len() < self.counts().total() {
            return Err(Cause::MemoryShort.into());
        }
        Ok(())
    }

    // Whether the memory begins with the half sheet of these nodes, and this is its half sheet. The code has no part in it.
    fn has_begun(&self, memory: &[u8], half: &HalfSheet) -> bool
        requires { size_of self.now ≤ length memory.now }
        ensures { result ≡ is_half self.now half.now memory.now }
    {
        if *half != self.half() {
            return false;
        }
        let header = header_bytes(half.nodes, 0, 0, 0);
        &memory[..HEADER] == header.as_slice()
            && entries_match(&memory[HEADER..self.counts().code_at()], self.nodes)
    }

    // Whether the sheet can be finished: the room comes first.
    fn check_half(&self, memory: &[u8], half: &HalfSheet) -> Result<(), Refusal>
        ensures { result ≡ finish_verdict (Some self.now) half.now memory.now }
    {
        self.check_room(memory)?;
        if !self.has_begun(memory, half) {
            return Err(Cause::NotThisHalf.into());
        }
        Ok(())
    }

    // Writes the header of a half sheet and the nodes, where the memory has room for the finished sheet.
    pub fn start(&self, memory: &mut [u8]) -> Result<HalfSheet, Refusal>
        ensures answer { result ≡ start_answer (Some self.now) memory.old }
        ensures memory { memory.new ≡ start_memory (Some self.now) memory.old }
    {
        let half = self.half();
        self.check_room(memory)?;
        write_header(memory, &header_bytes(half.nodes, 0, 0, 0));
        write_entries(&mut memory[HEADER..], self.nodes);
        Ok(half)
    }

    // Writes the code and the full header where `start` has left the half sheet, and answers the sheet's length.
    pub fn finish(&self, memory: &mut [u8], half: HalfSheet) -> Result<usize, (Refusal, HalfSheet)>
        ensures answer { result ≡ finish_answer (Some self.now) half memory.old }
        ensures memory { memory.new ≡ finish_memory (Some self.now) half memory.old }
    {
        if let Err(refusal) = self.check_half(memory, &half) {
            return Err((refusal, half));
        }
        complete(self.code, memory, half);
        Ok(self.counts().total())
    }
}
