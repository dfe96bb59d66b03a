ghost use Rattle.std.specs.Prelude.{◌≡◌, ◌≤◌, length};
ghost use Rattle.sheet.specs.Layout.{Program, archive};

use crate::layout::Counts;
use std::marker::Model;
use vocabulary::code::Word;
use vocabulary::node::Node;

// What a sheet archives: the nodes of a table and their code, no more of either than a table can have.
#[derive(Drop)]
pub struct Contents<'a> {
    pub(crate) nodes: &'a [Node],
    pub(crate) code: &'a [Word],
}

impl<'a> Model for Contents<'a> {
    ghost Value = { Program };

    ghost view = { λ contents. archive contents.nodes.now contents.code.now };

    ghost invariant = { λ contents. (length contents.nodes.now ≤ 512) × (length contents.code.now ≤ 1537) };
}

impl<'a> Contents<'a> {
    pub fn new(nodes: &'a [Node], code: &'a [Word]) -> Contents<'a>
        requires nodes { length nodes.now ≤ 512 }
        requires words { length code.now ≤ 1537 }
        ensures { result ≡ archive nodes.now code.now }
    {
        Contents { nodes, code }
    }

    pub fn counts(&self) -> Counts
        ensures nodes { result.nodes ≡ length self.now.nodes }
        ensures words { result.words ≡ length self.now.code }
        ensures few_nodes { result.nodes ≤ 512 }
        ensures few_words { result.words ≤ 1537 }
    {
        Counts {
            nodes: self.nodes.len() as u16,
            words: self.code.len() as u16,
        }
    }
}
