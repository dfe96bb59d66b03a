// The lines of a tree, in the order of a walk from its root.
ghost use Rattle.std.specs.Prelude.{◌≡◌, ◌+◌, ◌<◌, ◌++◌, length, string_bytes, OnOk};
ghost use Rattle.std.specs.List.{flat_map};
ghost use Rattle.listing.specs.Page.{tree_line};
ghost use Rattle.listing.specs.Rows.{walk};

use crate::lines::push_tree_line;
use crate::rows::Row;
use language::check::Shaped;
use language::rules::children;
use std::alloc::AllocError;

// Adds the lines of a node and of all nodes below it.
pub fn push_tree(text: &mut String, shaped: Shaped<'_>, row: Row) -> Result<(), AllocError>
    requires here { row.node < length shaped.nodes.now }
    requires deep { row.node + row.level < 512 }
    ensures { OnOk result (string_bytes text.new ≡ string_bytes text.old ++ flat_map (tree_line shaped.entry.nodes.now) (walk shaped.entry.nodes.now row)) }
{
    push_tree_line(text, shaped, row)?;
    let children = children(shaped.nodes[usize::from(row.node)]);
    for child in children.as_slice() {
        let below = Row {
            node: child.number,
            level: row.level + 1,
        };
        push_tree(text, shaped, below)?;
    }
    Ok(())
}
