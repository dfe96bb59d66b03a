// A line of the tree: a node, and how far it is below the root.
#[derive(Clone, Copy, PartialEq, Eq, Debug)]
pub struct Row {
    pub node: u16,
    pub level: u16,
}
