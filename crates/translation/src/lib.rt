// The translation of a checked table: one walk that checks the names and writes the code.
#![tactic(auto)]

ghost use Rattle.language.specs.Reading.{tree_of};
ghost use Rattle.translation.specs.Translated.{ProgramOf};

mod command;
mod declaration;
mod expression;
mod scope;
mod translator;
mod writer;

use language::check::Shaped;
use translator::Translator;
use vocabulary::code::{Instruction, Word};
use vocabulary::refusal::Refusal;
use vocabulary::table::Table;

// The code of a program. A program of 512 nodes has 1537 words at most.
pub type Code = Table<Word, 1537>;

// The code of a table whose shape is accepted, or the first fault of its names.
pub fn translate(shaped: Shaped<'_>) -> Result<Code, Refusal>
    ensures { ProgramOf (tree_of shaped.entry.nodes.now) result }
{
    let root = shaped.root();
    let mut translator = Translator::new(shaped);
    translator.command(root)?;
    translator.code.emit(Instruction::Halt, root);
    Ok(translator.into_code())
}
