ghost use Rattle.std.specs.Prelude.{◌≡◌, ◌<◌, suc, length, []};
ghost use Rattle.language.specs.Translation.{one, word};
ghost use Rattle.translation.specs.Held.{text, Added, Aimed, Reserved};

use crate::Code;
use vocabulary::code::{Instruction, Word};
use vocabulary::table::Table;

// The code written so far.
#[derive(Drop)]
pub struct Writer {
    pub words: Code,
}

// A place that is left in the code for a node's jump, until the jump's target is known.
#[derive(Clone, Copy)]
pub struct Gap {
    pub at: u16,
    pub node: u16,
}

impl Writer {
    // No words yet.
    pub fn new() -> Writer
        ensures { text result ≡ [] }
    {
        Writer {
            words: Table::new(Word {
                instruction: Instruction::Halt,
                node: 0,
            }),
        }
    }

    // The position of the next word.
    pub fn here(&self) -> u16
        ensures { result ≡ length (text self.now) }
    {
        self.words.len() as u16
    }

    pub fn emit(&mut self, instruction: Instruction, node: u16)
        requires { length (text self.old) < 1537 }
        ensures { Added self.old self.new (one instruction node) (suc (length (text self.old))) }
    {
        self.words.push(Word { instruction, node });
    }

    // Leaves the next place for a jump of the node.
    pub fn reserve(&mut self, node: u16) -> Gap
        requires { length (text self.old) < 1537 }
        ensures { Reserved self.old self.new node result }
    {
        let at = self.here();
        self.emit(Instruction::Halt, node);
        Gap { at, node }
    }

    // Writes the jump for which a place was left, once what it jumps over is written.
    pub fn aim(&mut self, gap: Gap, jump: Instruction)
        requires { gap.at < length (text self.old) }
        ensures { Aimed self.old self.new gap.at (word jump gap.node) }
    {
        let word = Word {
            instruction: jump,
            node: gap.node,
        };
        self.words.set(usize::from(gap.at), word).unwrap();
    }
}
