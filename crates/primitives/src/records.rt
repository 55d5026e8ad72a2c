// Cells of the records that several readers share: of a map, of a supplied partition and of a node.
// A function for each cell, though each is a line: its name says more than a place as a parameter. Cells are `usize` with the
// bound of a byte, since places are made of them. Totality and flags are numbers: section 2 is refused for a totality above 1,
// section 3 for flags above 3.
// The clauses that a place is below 2 ^ 64: it is made of the number, which may be any.
ghost use Rattle.std.specs.Prelude.{◌≡◌, ◌+◌, ◌*◌, ◌^◌, ◌<◌};
ghost use Rattle.model.specs.Tests.{◌or◌, ◌=?◌};
ghost use Rattle.model.specs.Layout.{Plan, source, target, totality, supplied_region, supplied_flags, node_a, node_b};
ghost use Rattle.model.specs.Nodes.{node_kind_of, node_kind_at};

use crate::bytes::byte_at;
use crate::lookup::entry_or;
use model::NodeKind;

// The region that a map leads from.
pub fn map_source(maps: &[u8], map: usize) -> usize
    requires { map * 3 + 2 < 2 ^ 64 }
    ensures { ((P : Plan) → P.maps ≡ maps.now → result ≡ source P map) × (result < 256) }
{
    byte_at(maps, map * 3)
}

// The region that a map leads to.
pub fn map_target(maps: &[u8], map: usize) -> usize
    requires { map * 3 + 2 < 2 ^ 64 }
    ensures { ((P : Plan) → P.maps ≡ maps.now → result ≡ target P map) × (result < 256) }
{
    byte_at(maps, map * 3 + 1)
}

// Whether a map is "0 partial or 1 total".
pub fn map_totality(maps: &[u8], map: usize) -> usize
    requires { map * 3 + 2 < 2 ^ 64 }
    ensures { ((P : Plan) → P.maps ≡ maps.now → result ≡ totality P map) × (result < 256) }
{
    byte_at(maps, map * 3 + 2)
}

// The region of a supplied partition.
pub fn supplied_region(supplied: &[u8], partition: usize) -> usize
    requires { partition * 2 + 1 < 2 ^ 64 }
    ensures { ((P : Plan) → P.supplied ≡ supplied.now → result ≡ supplied_region P partition) × (result < 256) }
{
    byte_at(supplied, partition * 2)
}

// The flags of a supplied partition: "1 disjoint, 2 complete, 3 both, 0 neither".
pub fn supplied_flags(supplied: &[u8], partition: usize) -> usize
    requires { partition * 2 + 1 < 2 ^ 64 }
    ensures { ((P : Plan) → P.supplied ≡ supplied.now → result ≡ supplied_flags P partition) × (result < 256) }
{
    byte_at(supplied, partition * 2 + 1)
}

// What the flags of a supplied partition declare it to be.
pub const DISJOINT: usize = 1;

pub const COMPLETE: usize = 2;

const BOTH: usize = 3;

// Whether flags declare a supplied partition to be that. `flag` is a number: it is compared with the byte that has it.
#[tactic(auto, using(crate::proofs::OpenTests::tests_open))]
pub fn is_declared(flags: usize, flag: usize) -> bool
    ensures { result ≡ (flags =? flag or flags =? 3) }
{
    (flags == flag) | (flags == BOTH)
}

// The kind that a number stands for. A function for nodes and one for statements (`loops::kinds::kind_of`): one for both
// would take a trait that says of each enum what its definition is, longer than the two.
#[tactic(auto, using(crate::proofs::NoKinds::no_node_kind))]
pub fn node_kind_of(number: usize) -> NodeKind
    ensures { result ≡ node_kind_of number }
{
    match u8::try_from(number) {
        Ok(byte) => NodeKind::from(byte),
        Err(_) => NodeKind::Unknown,
    }
}

// The kind of node j. One for statements is `loops::statements::kind_at`: a function each, for the reason at `node_kind_of`.
#[tactic(auto, unfolding(model::specs::Nodes::node_kind_at))]
pub fn node_kind(nodes: &[u8], j: usize) -> NodeKind
    requires { j * 4 + 3 < 2 ^ 64 }
    ensures { (P : Plan) → P.nodes ≡ nodes.now → result ≡ node_kind_at P j }
{
    NodeKind::from(entry_or(nodes, j * 4, 0))
}

// The operands of node j.
pub fn node_operands(nodes: &[u8], j: usize) -> (usize, usize)
    requires { j * 4 + 3 < 2 ^ 64 }
    ensures left { (P : Plan) → P.nodes ≡ nodes.now → result.0 ≡ node_a P j }
    ensures right { (P : Plan) → P.nodes ≡ nodes.now → result.1 ≡ node_b P j }
    ensures bytes { (result.0 < 256) × (result.1 < 256) }
{
    (byte_at(nodes, j * 4 + 1), byte_at(nodes, j * 4 + 2))
}
