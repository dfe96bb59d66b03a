// Which declarations are visible at a node of a table whose shape was accepted.
use language::kind::Kind;
use language::rules::children;
use std::alloc::{AllocError, Global};
use std::fmt;
use vocabulary::node::Node;

// What a name was declared as.
#[derive(Clone, Copy, PartialEq, Eq, Debug)]
pub enum Declared {
    Constant,
    Variable,
    Parameter,
    Procedure,
    Function,
}

// A declaration: what it declares, its name, and its node.
#[derive(Clone, Copy)]
pub struct Visible {
    pub declared: Declared,
    pub name: u16,
    pub node: usize,
}

impl fmt::Display for Declared {
    fn fmt<W: fmt::Write>(&self, f: &mut fmt::Formatter<W>) -> fmt::Result {
        f.write_str(match self {
            Declared::Constant => "a constant",
            Declared::Variable => "a variable",
            Declared::Parameter => "a parameter",
            Declared::Procedure => "a procedure",
            Declared::Function => "a function",
        })
    }
}

// What a declaration leaves visible behind it.
fn declared_by(kind: Kind) -> Option<Declared> {
    match kind {
        Kind::Constant => Some(Declared::Constant),
        Kind::Variable => Some(Declared::Variable),
        Kind::Procedure => Some(Declared::Procedure),
        Kind::Function => Some(Declared::Function),
        _ => None,
    }
}

// A walk over the tree of a table to a node of it, in the order of the check of names. Not translation's own scope: its refusal
// tells the node, and not what was visible there.
#[derive(Drop)]
struct Walk<'a> {
    nodes: &'a [Node],
    target: usize,
    // what is visible where the walk is, the latest last
    scope: Vec<Visible>,
}

impl Walk<'_> {
    // Walks the tree of node `n`, until the target is met: answers whether it was. A child is lower than its parent in every
    // table of accepted shape; the test makes the walk end for any other.
    fn meets(&mut self, n: usize) -> Result<bool, AllocError> {
        if n == self.target {
            return Ok(true);
        }
        let Some(node) = self.nodes.get(n).copied() else {
            return Ok(false);
        };
        let Ok(kind) = Kind::try_from(node.kind) else {
            return Ok(false);
        };
        let before = self.scope.len();
        if matches!(kind, Kind::Procedure | Kind::Function) {
            self.scope.push(Visible {
                declared: Declared::Parameter,
                name: node.c,
                node: n,
            })?;
        }
        for child in children(node).as_slice() {
            let child = usize::from(child.number);
            if child < n && self.meets(child)? {
                return Ok(true);
            }
        }
        if matches!(kind, Kind::Block | Kind::Procedure | Kind::Function) {
            self.scope.truncate(before);
        }
        if let Some(declared) = declared_by(kind) {
            self.scope.push(Visible {
                declared,
                name: u16::from(node.tag),
                node: n,
            })?;
        }
        Ok(false)
    }
}

// The latest declaration of a name that is visible at a node, if there is one.
pub fn latest(
    heap: Global,
    nodes: &[Node],
    target: usize,
    name: u8,
) -> Result<Option<Visible>, AllocError> {
    let mut walk = Walk {
        nodes,
        target,
        scope: Vec::new(heap),
    };
    let _met = walk.meets(nodes.len().saturating_sub(1))?;
    let name = u16::from(name);
    Ok(
        walk.scope
            .iter()
            .rev()
            .find(|visible| visible.name == name)
            .copied(),
    )
}
