// Declarations, in the cycle of calls that `command` begins.
ghost use Rattle.std.specs.Prelude.{◌≡◌};
ghost use Rattle.language.specs.Reading.{tree_d};
ghost use Rattle.language.specs.Table.{at};
ghost use Rattle.translation.specs.Translated.{nodes, Encloses, Introduces, ReadyBody, ReadyD, TranslatedBody, TranslatedD};

use crate::translator::{Mark, Translator};
use language::kind::Kind;
use language::name::Role;
use vocabulary::code::Instruction;
use vocabulary::refusal::Refusal;

impl Translator<'_> {
    // Writes the code of the declaration at node `n`, and makes its names visible.
    #[cycle(commands)]
    pub fn declaration(&mut self, n: u16) -> Result<(), Refusal>
        requires { ReadyD self.old n }
        ensures { TranslatedD (tree_d (nodes self.old) n) self.old self.new result }
    {
        let node = self.node(n);
        match self.shaped.kind(n) {
            Kind::Constant => self.value_declaration(n, Instruction::Bind),
            Kind::Variable => self.value_declaration(n, Instruction::New),
            Kind::Procedure => self.routine(n, Role::Procedure),
            Kind::Function => self.routine(n, Role::Function),
            Kind::Pair => {
                self.declaration(node.a)?;
                self.declaration(node.b)
            }
            _ => unreachable!(),
        }
    }

    // A constant has its value by BIND, a variable a cell with it by NEW.
    fn value_declaration(&mut self, n: u16, instruction: Instruction) -> Result<(), Refusal>
        requires ready { ReadyD self.old n }
        requires kind { Introduces instruction (at (nodes self.old) n).kind }
        ensures { TranslatedD (tree_d (nodes self.old) n) self.old self.new result }
    {
        let node = self.node(n);
        self.plain_value(node.a)?;
        self.code.emit(instruction, n);
        self.scope.bind(node.tag, Role::Value);
        Ok(())
    }

    // A procedure or a function, by its role.
    #[cycle(commands)]
    fn routine(&mut self, n: u16, role: Role) -> Result<(), Refusal>
        requires ready { ReadyD self.old n }
        requires kind { Encloses role (at (nodes self.old) n).kind }
        ensures { TranslatedD (tree_d (nodes self.old) n) self.old self.new result }
    {
        let node = self.node(n);
        let start = self.code.here() + 2;
        self.code.emit(Instruction::Clos(start), n);
        let past = self.code.reserve(n);
        self.body(n, role)?;
        self.code.emit(Instruction::Ret, n);
        self.code.aim(past, Instruction::Jump(self.code.here()));
        self.scope.bind(node.tag, role);
        Ok(())
    }

    // The body sees the parameter, and not its own name; the parameter is visible until the body's end.
    #[cycle(commands)]
    fn body(&mut self, n: u16, role: Role) -> Result<(), Refusal>
        requires ready { ReadyBody self.old n }
        requires kind { Encloses role (at (nodes self.old) n).kind }
        ensures { TranslatedBody (tree_d (nodes self.old) n) self.old self.new result }
    {
        let node = self.node(n);
        let parameter = node.c as u8;
        let was = self.scope.entries.len();
        let body = Mark {
            translator: self,
            was,
        };
        body.translator.scope.bind(parameter, Role::Value);
        match role {
            Role::Procedure => body.translator.command(node.a),
            Role::Value | Role::Function => body.translator.expression(node.a),
        }
    }
}
