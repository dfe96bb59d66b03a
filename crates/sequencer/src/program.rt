ghost use Rattle.std.specs.Prelude.{◌≡◌};
ghost use Rattle.language.specs.Reading.{tree_of};
ghost use Rattle.language.specs.Translation.{program};

use translation::Code;
use vocabulary::node::Node;
use vocabulary::table::Table;

// A table that was accepted: its nodes, and their translation.
#[derive(Drop)]
pub struct Program {
    pub(crate) nodes: Table<Node, 512>,
    pub(crate) code: Code,
    ghost translated: { code ≡ program (tree_of nodes) },
}
