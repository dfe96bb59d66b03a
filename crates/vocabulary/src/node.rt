// One node of a tree table. `tag` is byte 1: a name, an operator or a truth, by kind. Kind and tag are numbers here, since a table
// gives any byte, and a bad one is refused by its rule; `Kind` of the crate `language` is what an accepted kind is.
#[derive(Clone, Copy, PartialEq, Eq, Default, Debug)]
pub struct Node {
    pub kind: u8,
    pub tag: u8,
    pub a: u16,
    pub b: u16,
    pub c: u16,
}
