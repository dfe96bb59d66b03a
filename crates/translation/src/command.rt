// Commands and declarations, which hold each other: those calls go round in a cycle, and the node number falls.
ghost use Rattle.std.specs.Prelude.{◌≡◌};
ghost use Rattle.language.specs.Kinds.{kind_number};
ghost use Rattle.language.specs.Reading.{tree_c};
ghost use Rattle.language.specs.Table.{at};
ghost use Rattle.translation.specs.Translated.{nodes, ReadyC, TranslatedC};

use crate::translator::{Mark, Translator};
use language::kind::Kind;
use language::name::Role;
use vocabulary::code::Instruction;
use vocabulary::refusal::Refusal;

impl Translator<'_> {
    // Writes the code of the command at node `n`.
    #[cycle(commands)]
    pub fn command(&mut self, n: u16) -> Result<(), Refusal>
        requires { ReadyC self.old n }
        ensures { TranslatedC (tree_c (nodes self.old) n) self.old self.new result }
    {
        let node = self.node(n);
        match self.shaped.kind(n) {
            Kind::Assign => self.assign(n),
            Kind::Output => {
                self.plain_value(node.a)?;
                self.code.emit(Instruction::Put, n);
                Ok(())
            }
            Kind::If => self.conditional(n),
            Kind::While => self.repetition(n),
            Kind::Block => self.block(n),
            Kind::Sequence => {
                self.command(node.a)?;
                self.command(node.b)
            }
            Kind::ProcedureCall => self.call(n, Role::Procedure),
            _ => unreachable!(),
        }
    }

    fn assign(&mut self, n: u16) -> Result<(), Refusal>
        requires ready { ReadyC self.old n }
        requires kind { (at (nodes self.old) n).kind ≡ kind_number Kind.Assign }
        ensures { TranslatedC (tree_c (nodes self.old) n) self.old self.new result }
    {
        let node = self.node(n);
        self.expression(node.a)?;
        self.code.emit(Instruction::IsLoc, n);
        self.plain_value(node.b)?;
        self.code.emit(Instruction::Store, n);
        Ok(())
    }

    #[cycle(commands)]
    fn conditional(&mut self, n: u16) -> Result<(), Refusal>
        requires ready { ReadyC self.old n }
        requires kind { (at (nodes self.old) n).kind ≡ kind_number Kind.If }
        ensures { TranslatedC (tree_c (nodes self.old) n) self.old self.new result }
    {
        let node = self.node(n);
        self.plain_value(node.a)?;
        let past = self.code.reserve(n);
        self.command(node.b)?;
        let end = self.code.reserve(n);
        self.code
            .aim(past, Instruction::JumpFalse(self.code.here()));
        self.command(node.c)?;
        self.code.aim(end, Instruction::Jump(self.code.here()));
        Ok(())
    }

    #[cycle(commands)]
    fn repetition(&mut self, n: u16) -> Result<(), Refusal>
        requires ready { ReadyC self.old n }
        requires kind { (at (nodes self.old) n).kind ≡ kind_number Kind.While }
        ensures { TranslatedC (tree_c (nodes self.old) n) self.old self.new result }
    {
        let node = self.node(n);
        let start = self.code.here();
        self.plain_value(node.a)?;
        let past = self.code.reserve(n);
        self.command(node.b)?;
        self.code.emit(Instruction::Jump(start), n);
        self.code
            .aim(past, Instruction::JumpFalse(self.code.here()));
        Ok(())
    }

    // The names of the block are visible until its end.
    #[cycle(commands)]
    fn block(&mut self, n: u16) -> Result<(), Refusal>
        requires ready { ReadyC self.old n }
        requires kind { (at (nodes self.old) n).kind ≡ kind_number Kind.Block }
        ensures { TranslatedC (tree_c (nodes self.old) n) self.old self.new result }
    {
        let node = self.node(n);
        self.code.emit(Instruction::Enter, n);
        let was = self.scope.entries.len();
        let block = Mark {
            translator: self,
            was,
        };
        block.translator.declaration(node.a)?;
        block.translator.command(node.b)?;
        block.translator.code.emit(Instruction::Leave, n);
        Ok(())
    }
}
