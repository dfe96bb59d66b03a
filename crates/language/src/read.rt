// A table's bytes become nodes here, at the edge; nothing inside reads a byte.
ghost use Rattle.std.specs.Prelude.{◌≡◌, ◌/◌, ◌≤◌, true, false, length, IfOk, IfErr};
ghost use Rattle.vocabulary.specs.Refusals.{refusal};
ghost use Rattle.language.specs.Table.{fits, node_at, nodes_of};

use vocabulary::node::Node;
use vocabulary::refusal::{Cause, Refusal};
use vocabulary::table::Table;

// Whether a table can have this length: in eights, 1 to 512 nodes.
pub fn fits(size: usize) -> bool
    ensures { result ≡ fits size }
{
    size > 0 && size % 8 == 0 && size <= 4096
}

// The node of 8 bytes; a 16-bit field has its low byte first.
fn read_node(bytes: [u8; 8]) -> Node
    ensures { result ≡ node_at bytes 0 }
{
    let [kind, tag, a, a_high, b, b_high, c, c_high] = bytes;
    Node {
        kind,
        tag,
        a: u16::from_le_bytes([a, a_high]),
        b: u16::from_le_bytes([b, b_high]),
        c: u16::from_le_bytes([c, c_high]),
    }
}

// The nodes of a table that has no more of them than that; bytes over behind the last eight are left.
pub fn read_nodes<const MOST: usize>(table: &[u8]) -> Table<Node, MOST>
    requires { length table.now / 8 ≤ MOST }
    ensures { result ≡ nodes_of table.now }
{
    let mut nodes = Table::new(Node::default());
    let (chunks, _) = table.as_chunks::<8>();
    for bytes in chunks {
        nodes.push(read_node(*bytes));
    }
    nodes
}

// The nodes of a table, unless its length is against the rule.
pub fn read_table(table: &[u8]) -> Result<Table<Node, 512>, Refusal>
    ensures read { IfOk result (λ nodes. (fits (length table.now) ≡ true) × (nodes ≡ nodes_of table.now)) }
    ensures refused { IfErr result (λ fault. (fits (length table.now) ≡ false) × (fault ≡ refusal Cause.TableLength 0)) }
{
    if !fits(table.len()) {
        return Err(Cause::TableLength.into());
    }
    Ok(read_nodes(table))
}
