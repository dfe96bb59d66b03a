// The two parts of a page, and the page.
ghost use Rattle.std.specs.Prelude.{◌≡◌, ◌++◌, IfOk, string_bytes, OnOk};
ghost use Rattle.listing.specs.Page.{tree_part, code_part, page as page_of};

use crate::lines::push_code_line;
use crate::rows::Row;
use crate::tree::push_tree;
use language::check::Shaped;
use std::alloc::{AllocError, Global};
use vocabulary::code::Word;

fn push_tree_part(text: &mut String, shaped: Shaped<'_>) -> Result<(), AllocError>
    ensures { OnOk result (string_bytes text.new ≡ string_bytes text.old ++ tree_part shaped.entry.nodes.now) }
{
    let count = shaped.nodes.len();
    write!(text, "Tree: {count} nodes\n node  level  form\n")?;
    let root = Row {
        node: shaped.root(),
        level: 0,
    };
    push_tree(text, shaped, root)
}

fn push_code_part(text: &mut String, code: &[Word]) -> Result<(), AllocError>
    ensures { OnOk result (string_bytes text.new ≡ string_bytes text.old ++ code_part code.now) }
{
    let count = code.len();
    write!(
        text,
        "Code: {count} words\nposition  instruction      operand   node\n"
    )?;
    for (position, word) in code.iter().enumerate() {
        push_code_line(text, position, *word)?;
    }
    Ok(())
}

// The page of nodes of accepted shape.
pub fn page(heap: Global, shaped: Shaped<'_>, code: &[Word]) -> Result<String, AllocError>
    ensures { IfOk result (λ text. string_bytes text ≡ page_of shaped.entry.nodes.now code.now) }
{
    let mut text = String::new(heap);
    push_tree_part(&mut text, shaped)?;
    text.push('\n')?;
    push_code_part(&mut text, code)?;
    Ok(text)
}
