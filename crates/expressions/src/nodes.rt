// Section 5: expressions.
// The sections' bodies are slices: they are handed to each section's reader (project's form). A record's place is made of j, so
// that it is asked to be a number of the machine.
// Numbers are narrowed by `as`: the bound is proved, and `try_from` would have a case that never comes.
ghost use Rattle.std.specs.Prelude.{◌≡◌, ℕ, ◌+◌, ◌*◌, ◌/◌, ◌^◌, ◌≤◌, ◌<◌, length, IfSome};
ghost use Rattle.model.specs.Layout.{Plan};
ghost use Rattle.model.specs.Nodes.{node_formed};
ghost use Rattle.expressions.specs.Nodes.{NodeSources, Declared, kind_byte, node_key, NodeRead, RegionRead, EarlierNodes, NodeChecked, NodesChecked};

pub use crate::records::Node;
use model::{NodeKind, Refusal};
use primitives::bytes::byte_at;
use primitives::lookup::entry_or;
use primitives::outcomes::require;
use primitives::records::{map_source, map_target, supplied_region};

// What nodes may name: the bodies of sections 1 to 3.
#[derive(Clone, Copy)]
struct Declarations<'a> {
    regions: &'a [u8],
    maps: &'a [u8],
    supplied: &'a [u8],
}

// A node that passed: its region and its key.
#[derive(Clone, Copy, Debug, PartialEq, Eq)]
struct CheckedNode {
    region: u8,
    key: u32,
}

// The region and the key of each node. Two arrays, not one of pairs: several keys are compared at once. No `ArrayVec`, which is
// not `Copy`; and how many nodes there are is known where the tables are read.
#[derive(Clone, Copy, Debug, PartialEq, Eq)]
pub struct NodeTables {
    pub regions: [u8; 48],
    pub keys: [u32; 48],
}

// The record of node j, of bytes 0 where there is none.
#[tactic(auto, unfolding(model::specs::Nodes::node_kind_at))]
pub fn node_at(nodes: &[u8], j: usize) -> Node
    requires { j * 4 + 3 < 2 ^ 64 }
    ensures { (P : Plan) → P.nodes ≡ nodes.now → NodeRead P j result }
{
    Node::from([
        entry_or(nodes, j * 4, 0),
        entry_or(nodes, j * 4 + 1, 0),
        entry_or(nodes, j * 4 + 2, 0),
        entry_or(nodes, j * 4 + 3, 0),
    ])
}

// The record of node j, which is there. Nothing is tested: by node_at, which tests four places, 48 nodes take a quarter longer.
// A reader of its own, as steps and statements have: one over the width would take a closure with clauses for places that are
// plain here.
#[tactic(auto, unfolding(model::specs::Nodes::node_kind_at))]
fn read_node(nodes: &[u8], j: usize) -> Node
    requires { j * 4 + 3 < length nodes.now }
    ensures { (P : Plan) → P.nodes ≡ nodes.now → NodeRead P j result }
{
    Node::from([
        nodes[j * 4],
        nodes[j * 4 + 1],
        nodes[j * 4 + 2],
        nodes[j * 4 + 3],
    ])
}

// Kind, a and b as one key, which is compared faster than they are. It has a byte for each: `Node` holds the bounds of its own.
pub fn node_key(kind: usize, a: usize, b: usize) -> u32
    requires { (kind < 256) × ((a < 256) × (b < 256)) }
    ensures { result ≡ node_key kind a b }
{
    (kind + a * 256 + b * 65536) as u32
}

// The key of a node of this kind, by `as`: the number of an enum's case has no `From`.
pub fn key_of(kind: NodeKind, a: usize, b: usize) -> u32
    requires { (a < 256) × (b < 256) }
    ensures { result ≡ node_key (kind_byte kind) a b }
{
    node_key(kind as usize, a, b)
}

impl Declarations<'_> {
    // Whether the last byte of node j is 0, and a and b are as its kind has them: listed, an operand before j, unused 0.
    #[tactic(auto, using(primitives::proofs::OpenTests::tests_open, crate::proofs::NodeLaws::two_operands, crate::proofs::NodeLaws::one_operand), unfolding(model::specs::Nodes::node_formed, model::specs::Nodes::node_formed_by))]
    fn is_formed(&self, node: Node, j: usize) -> bool
        ensures { (P : Plan) → Declared P self.now → NodeRead P j node → result ≡ node_formed P j }
    {
        if node.unused != 0 {
            return false;
        }
        match node.kind {
            NodeKind::Supplied => (node.a < self.supplied.len() / 2) & (node.b == 0),
            NodeKind::Equal => (node.a < self.regions.len()) & (node.b == 0),
            NodeKind::Union | NodeKind::Intersection | NodeKind::Difference => {
                (node.a < j) & (node.b < j)
            }
            NodeKind::Image | NodeKind::Preimage => {
                (node.a < j) & (node.b < self.maps.len() / 3)
            }
            NodeKind::Unknown => false,
        }
    }

    // The region of a formed node, from the regions of earlier nodes; none where those of its operands disagree, with each other
    // or with its map.
    #[tactic(auto, using(primitives::proofs::OpenTests::tests_open, crate::proofs::NodeLaws::region_at), unfolding(model::specs::Nodes::node_formed, model::specs::Nodes::node_formed_by, model::specs::Nodes::node_agrees, model::specs::Nodes::node_agrees_by, model::specs::Nodes::node_region_by))]
    fn region_of(&self, earlier: &[u8], node: Node) -> Option<usize>
        ensures small { IfSome result (λ region. region < 256) }
        ensures read { (P : Plan) (j : ℕ) → Declared P self.now → NodeRead P j node → RegionRead P j earlier.now result }
    {
        let left = byte_at(earlier, node.a);
        match node.kind {
            NodeKind::Supplied => Some(supplied_region(self.supplied, node.a)),
            NodeKind::Equal => Some(node.a),
            NodeKind::Union | NodeKind::Intersection | NodeKind::Difference => {
                (left == byte_at(earlier, node.b)).then_some(left)
            }
            NodeKind::Image => {
                (left == map_source(self.maps, node.b)).then_some(map_target(self.maps, node.b))
            }
            NodeKind::Preimage => {
                (left == map_target(self.maps, node.b)).then_some(map_source(self.maps, node.b))
            }
            NodeKind::Unknown => None,
        }
    }

    // At node j: its form, the regions of its operands, and that no earlier node is equal.
    #[tactic(auto, using(primitives::proofs::Stages::stages), unfolding(model::specs::Nodes::node_check))]
    fn check_node(
        &self,
        nodes: &[u8],
        earlier: &NodeTables,
        j: usize,
    ) -> Result<CheckedNode, Refusal>
        requires { (j * 4 + 3 < length nodes.now) × (j ≤ 48) }
        ensures { (P : Plan) → Declared P self.now → P.nodes ≡ nodes.now → EarlierNodes P earlier.now j → NodeChecked P j result }
    {
        let place = 5 * 256 + j;
        let node = read_node(nodes, j);
        require(self.is_formed(node, j), Refusal::InvalidRecord(place))?;
        let region = self
            .region_of(&earlier.regions, node)
            .ok_or(Refusal::RegionMismatch(place))?;
        let key = node.key();
        require(!earlier.keys[..j].contains(&key), Refusal::DuplicateNode(j))?;
        Ok(CheckedNode {
            region: region as u8,
            key,
        })
    }
}

// Section 5: the first refusal of its nodes in order, or the tables of their regions and keys.
#[tactic(auto, using(primitives::proofs::Scanning::scanned))]
pub fn check_nodes(
    regions: &[u8],
    maps: &[u8],
    supplied: &[u8],
    nodes: &[u8],
) -> Result<NodeTables, Refusal>
    requires { length nodes.now / 4 ≤ 48 }
    ensures { (P : Plan) → NodeSources P regions.now maps.now supplied.now nodes.now → NodesChecked P result }
{
    let declarations = Declarations {
        regions,
        maps,
        supplied,
    };
    let mut tables = NodeTables {
        regions: [0; 48],
        keys: [0; 48],
    };
    for j in 0..nodes.len() / 4 {
        let node = declarations.check_node(nodes, &tables, j)?;
        tables.regions[j] = node.region;
        tables.keys[j] = node.key;
    }
    Ok(tables)
}
