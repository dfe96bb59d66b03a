ghost use Rattle.std.specs.Prelude.{◌≡◌, ◌≤◌, length};
ghost use Rattle.language.specs.Verdicts.{table_verdict};
ghost use Rattle.sequencer.specs.Accepts.{Accepts, AcceptsSheet};
ghost use Rattle.sequencer.specs.Model.{held};

use crate::program::Program;
use language::check::check_shape;
use language::read::read_table;
use sheet::contents::Contents;
use sheet::layout::HEADER;
use sheet::open::{code_matches, frame};
use translation::translate;
use vocabulary::node::Node;
use vocabulary::refusal::{Cause, Refusal};

impl Program {
    // Whether a table is accepted. Its program is not handed out, which costs a short table more than its check does.
    pub fn check(table: &[u8]) -> Result<(), Refusal>
        ensures { result ≡ table_verdict table.now }
    {
        let read = read_table(table)?;
        translate(check_shape(read.as_slice())?)?;
        Ok(())
    }

    // Checks a table and translates it.
    pub fn accept(table: &[u8]) -> Result<Program, Refusal>
        ensures { Accepts table.now result }
    {
        let nodes = read_table(table)?;
        let shaped = check_shape(nodes.as_slice())?;
        let code = translate(shaped)?;
        Ok(Program { nodes, code })
    }

    // Checks a sheet: its header, its table, and that its code is the translation of the table.
    pub fn accept_sheet(sheet: &[u8]) -> Result<Program, Refusal>
        ensures { AcceptsSheet sheet.now result }
    {
        let code_at = frame(sheet).ok_or(Cause::SheetHeader)?.code_at();
        let program = Program::accept(&sheet[HEADER..code_at])?;
        if !code_matches(&sheet[code_at..], program.code.as_slice()) {
            return Err(Cause::NotTheTranslation.into());
        }
        Ok(program)
    }

    // The nodes of the table.
    pub fn nodes(&self) -> &[Node]
        ensures value { result.now ≡ (held self.now).nodes }
        ensures few { length result.now ≤ 512 }
    {
        self.nodes.as_slice()
    }

    // What a sheet archives of it.
    pub fn contents(&self) -> Contents<'_>
        ensures { result ≡ held self.now }
    {
        Contents::new(self.nodes(), self.code.as_slice())
    }
}
