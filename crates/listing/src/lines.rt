// The lines of a node and of a word.
ghost use Rattle.std.specs.Prelude.{◌≡◌, ◌<◌, ◌++◌, length, string_bytes, OnOk};
ghost use Rattle.listing.specs.Page.{tree_line, code_line};

use crate::rows::Row;
use language::check::Shaped;
use std::alloc::AllocError;
use vocabulary::code::Word;

// The indentation stops growing at level 30, so that the line of a deep node stays on the page.
pub fn push_tree_line(text: &mut String, shaped: Shaped<'_>, row: Row) -> Result<(), AllocError>
    requires { row.node < length shaped.nodes.now }
    ensures { OnOk result (string_bytes text.new ≡ string_bytes text.old ++ tree_line shaped.entry.nodes.now row) }
{
    let Row { node, level } = row;
    let form = shaped.form(node);
    let indent = 2 + 2 * usize::from(level).min(30);
    writeln!(text, "{node:>5}{level:>7}{:indent$}{form}", "")
}

pub fn push_code_line(text: &mut String, position: usize, word: Word) -> Result<(), AllocError>
    ensures { OnOk result (string_bytes text.new ≡ string_bytes text.old ++ code_line position word) }
{
    let name = word.instruction.name();
    let operand = word.instruction.operand();
    let node = word.node;
    writeln!(text, "{position:>8}  {name:<11}{operand:>13}{node:>7}")
}
