// A program on one page of text: the tree of its nodes, and its code.
#![tactic(auto)]

ghost use Rattle.listing.specs.Listed.{Listed};

pub mod error;
mod lines;
mod parts;
pub mod rows;
pub mod theorems;
mod tree;

use error::ListingError;
use language::check::check_shape;
use parts::page;
use std::alloc::Global;
use vocabulary::code::Word;
use vocabulary::node::Node;

// The page of nodes that have a tree, and of any code.
pub fn listing(heap: Global, nodes: &[Node], code: &[Word]) -> Result<String, ListingError>
    ensures { Listed nodes.now code.now result }
{
    let shaped = check_shape(nodes)?;
    let text = page(heap, shaped, code)?;
    Ok(text)
}
