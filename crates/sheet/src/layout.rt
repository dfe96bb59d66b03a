ghost use Rattle.std.specs.Prelude.{◌≡◌, ℕ, List, length, refl};
ghost use Rattle.sheet.specs.Layout.{node_bytes, word_bytes, header, offset_of, total_of};

use vocabulary::code::Word;
use vocabulary::node::Node;

// The bytes of the header.
pub const HEADER: usize = 16;

// The bytes of an entry, which is a node or a code word.
pub const ENTRY: usize = 8;

// How many nodes and code words a sheet has.
#[derive(Clone, Copy, PartialEq, Eq, Debug)]
pub struct Counts {
    pub nodes: u16,
    pub words: u16,
}

impl Counts {
    // Where the code begins.
    pub fn code_at(self) -> usize
        ensures { result ≡ offset_of self.nodes }
    {
        HEADER + ENTRY * usize::from(self.nodes)
    }

    // The bytes of the whole sheet. The sum is one of `usize`, so that it does not wrap at 16 bits.
    pub fn total(self) -> usize
        ensures { result ≡ total_of self.nodes self.words }
    {
        self.code_at() + ENTRY * usize::from(self.words)
    }
}

// What a sheet has a list of, eight bytes each.
pub trait Entry: Copy {
    ghost encoding: { Self → List ℕ };

    ghost eight: { (entry : Self) → length (encoding entry) ≡ 8 };

    fn to_bytes(self) -> [u8; 8]
        ensures { result ≡ encoding self };
}

impl Entry for Node {
    ghost encoding = { node_bytes };

    ghost eight = { λ entry. refl };

    fn to_bytes(self) -> [u8; 8] {
        let [a0, a1] = self.a.to_le_bytes();
        let [b0, b1] = self.b.to_le_bytes();
        let [c0, c1] = self.c.to_le_bytes();
        [self.kind, self.tag, a0, a1, b0, b1, c0, c1]
    }
}

impl Entry for Word {
    ghost encoding = { word_bytes };

    ghost eight = { λ entry. refl };

    fn to_bytes(self) -> [u8; 8] {
        let [n0, n1] = self.node.to_le_bytes();
        let [o0, o1, o2, o3] = self.instruction.operand().to_le_bytes();
        [self.instruction.opcode(), 0, n0, n1, o0, o1, o2, o3]
    }
}

// A header with these counts, this offset of the code and this total.
pub fn header_bytes(nodes: u16, words: u16, offset: u16, total: u16) -> [u8; 16]
    ensures { result ≡ header nodes words offset total }
{
    let [n0, n1] = nodes.to_le_bytes();
    let [w0, w1] = words.to_le_bytes();
    let [o0, o1] = offset.to_le_bytes();
    let [t0, t1] = total.to_le_bytes();
    [1, 0, n0, n1, w0, w1, 16, 0, o0, o1, t0, t1, 0, 0, 0, 0]
}
