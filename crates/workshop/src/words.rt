// Kinds and rules in words.
use language::kind::{Kind, Rule};
use std::fmt;
use vocabulary::node::Node;

// What a node is called, if there is such a node and its kind is known.
#[derive(Clone, Copy)]
pub struct Called(pub Option<Kind>);

impl Called {
    pub fn at(nodes: &[Node], n: u16) -> Called {
        Called(
            nodes
                .get(usize::from(n))
                .and_then(|node| Kind::try_from(node.kind).ok()),
        )
    }
}

impl fmt::Display for Called {
    fn fmt<W: fmt::Write>(&self, f: &mut fmt::Formatter<W>) -> fmt::Result {
        match self.0 {
            Some(kind) => write!(f, "{kind}"),
            None => f.write_str("unknown"),
        }
    }
}

// What a field has to hold.
#[derive(Clone, Copy)]
pub struct Wanted(pub Rule);

impl fmt::Display for Wanted {
    fn fmt<W: fmt::Write>(&self, f: &mut fmt::Formatter<W>) -> fmt::Result {
        f.write_str(match self.0 {
            Rule::Unused => "has no use and must be 0",
            Rule::Name => "is a name and must be 0 to 255",
            Rule::Truth => "is a truth and must be 0 or 1",
            Rule::Operator => "is an operator and must be 1 to 6",
            Rule::Half => "is half of a number",
            Rule::Child(_) => "is a child",
        })
    }
}
