// The nodes that some nodes are made of, as the bits of a word.
ghost use Rattle.std.specs.Prelude.{◌+◌, ◌≤◌, ◌<◌};
ghost use Rattle.model.specs.Layout.{Plan};
ghost use Rattle.subregions.specs.Needed.{OperandBits, NodesRead, NeededFor};

use bitsets::words::{has_bit, one_bit};
use model::NodeKind;
use primitives::records::{node_kind, node_operands};

// Every node, of 64 at most. A set of nodes is one word and no type of its own: `has_bit`, `one_bit` and `|` serve it as they
// serve each word of a set of elements, and a type would say them again.
pub const ALL_NODES: u64 = u64::MAX;

// The operands of node j. One case for each kind (project's form).
fn operand_bits(nodes: &[u8], j: usize) -> u64
    requires { j < 48 }
    ensures { (P : Plan) → NodesRead P nodes.now (j + 1) → OperandBits P j result }
{
    let (a, b) = node_operands(nodes, j);
    let left = one_bit(a);
    let both = left | one_bit(b);
    match node_kind(nodes, j) {
        NodeKind::Supplied => 0,
        NodeKind::Equal => 0,
        NodeKind::Union => both,
        NodeKind::Intersection => both,
        NodeKind::Difference => both,
        NodeKind::Image => left,
        NodeKind::Preimage => left,
        NodeKind::Unknown => 0,
    }
}

// The wanted nodes of the first `count`, and all that they are made of: operands are earlier nodes, so that one pass from
// the last down finds them. By number, since it is a node's bit and says where its record is; and `count` of them, since
// the nodes behind are not asked.
pub fn needed_nodes(nodes: &[u8], count: usize, wanted: u64) -> u64
    requires { count ≤ 48 }
    ensures { (P : Plan) → NodesRead P nodes.now count → NeededFor P count wanted result }
{
    let mut needed = wanted;
    for j in (0..count).rev() {
        if has_bit(needed, j) {
            needed |= operand_bits(nodes, j);
        }
    }
    needed
}
