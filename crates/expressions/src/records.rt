// A node and a lemma step, as their records say them.
ghost use Rattle.std.specs.Prelude.{◌≡◌, ◌<◌, get_or};
ghost use Rattle.model.specs.Nodes.{node_kind_of};

use crate::nodes::key_of;
use model::NodeKind;
use primitives::records::{is_declared, supplied_flags};

// A record of section 5.
#[derive(Clone, Copy, Debug, PartialEq, Eq)]
pub struct Node {
    pub kind: NodeKind,
    pub a: usize,
    pub b: usize,
    pub unused: usize,
    pub ghost a_byte: { a < 256 },
    pub ghost b_byte: { b < 256 },
}

// The node of a record's bytes: "kind, a, b, 0".
impl From<[u8; 4]> for Node {
    ghost from_gives = { λ bytes node. (node.kind ≡ node_kind_of (get_or bytes 0 0)) × (node.a ≡ get_or bytes 1 0) × (node.b ≡ get_or bytes 2 0) × (node.unused ≡ get_or bytes 3 0) };

    fn from(bytes: [u8; 4]) -> Self {
        let [kind, a, b, unused] = bytes;
        Node {
            kind: NodeKind::from(kind),
            a: usize::from(a),
            b: usize::from(b),
            unused: usize::from(unused),
        }
    }
}

impl Node {
    ghost use Rattle.std.specs.Prelude.{◌≡◌, ℕ, ◌<◌};
    ghost use Rattle.model.specs.Tests.{◌and◌, ◌or◌, ◌=?◌};
    ghost use Rattle.model.specs.Layout.{Plan, supplied_flags, node_kind, node_a, node_b};
    ghost use Rattle.model.specs.Nodes.{SUPPLIED};
    ghost use Rattle.model.specs.Lemmas.{operand_of, is_node};
    ghost use Rattle.expressions.specs.Nodes.{kind_byte, node_key, NodeRead};

    // Its kind and operands as one key.
    pub(crate) fn key(self) -> u32
        ensures { result ≡ node_key (kind_byte self.kind) self.a self.b }
    {
        key_of(self.kind, self.a, self.b)
    }

    // Whether it is a supplied partition that is declared to be that.
    #[tactic(auto, using(primitives::proofs::OpenTests::tests_open, crate::proofs::NodeLaws::known_kinds), unfolding(model::specs::Nodes::node_kind_of))]
    pub(crate) fn is_declared(self, supplied: &[u8], flag: usize) -> bool
        ensures { (P : Plan) (j : ℕ) → P.supplied ≡ supplied.now → NodeRead P j self → result ≡ (node_kind P j =? SUPPLIED and (supplied_flags P (node_a P j) =? flag or supplied_flags P (node_a P j) =? 3)) }
    {
        let flags = supplied_flags(supplied, self.a);
        (self.kind == NodeKind::Supplied) & is_declared(flags, flag)
    }

    // Whether k is one of its two operands.
    #[tactic(auto, using(primitives::proofs::OpenTests::tests_open), unfolding(model::specs::Lemmas::operand_of))]
    pub(crate) fn is_operand(self, k: usize) -> bool
        ensures { (P : Plan) (j : ℕ) → NodeRead P j self → result ≡ operand_of P j k }
    {
        (self.a == k) | (self.b == k)
    }

    // Whether it is of this kind, with these two numbers.
    #[tactic(auto, using(primitives::proofs::OpenTests::tests_open, crate::proofs::NodeLaws::kind_same, crate::proofs::NodeLaws::known_kinds), unfolding(model::specs::Lemmas::is_node))]
    pub(crate) fn is_made_of(self, kind: NodeKind, a: usize, b: usize) -> bool
        ensures { (P : Plan) (j : ℕ) → NodeRead P j self → kind_byte kind < 7 → result ≡ is_node P j (kind_byte kind) a b }
    {
        (self.kind == kind) & (self.a == a) & (self.b == b)
    }

    // Whether it and another are of this kind, under one map.
    #[tactic(auto, using(primitives::proofs::OpenTests::tests_open, crate::proofs::NodeLaws::kind_same, crate::proofs::NodeLaws::known_kinds))]
    pub(crate) fn shares_map(self, other: Node, kind: NodeKind) -> bool
        ensures { (P : Plan) (i j : ℕ) → NodeRead P i self → NodeRead P j other → kind_byte kind < 7 → result ≡ (node_kind P i =? kind_byte kind and node_kind P j =? kind_byte kind and node_b P i =? node_b P j) }
    {
        (self.kind == kind) & (other.kind == kind) & (self.b == other.b)
    }
}

// A record of section 7. The lemma is its number, which names its row of the table.
#[derive(Clone, Copy, Debug, PartialEq, Eq)]
pub struct Step {
    pub lemma: usize,
    pub x: usize,
    pub y: usize,
    pub p: usize,
    pub q: usize,
    pub ghost x_byte: { x < 256 },
    pub ghost y_byte: { y < 256 },
    pub ghost p_byte: { p < 256 },
}

// The step of a record's bytes: "lemma, x, y, p, q".
impl From<[u8; 5]> for Step {
    ghost from_gives = { λ bytes step. (step.lemma ≡ get_or bytes 0 0) × (step.x ≡ get_or bytes 1 0) × (step.y ≡ get_or bytes 2 0) × (step.p ≡ get_or bytes 3 0) × (step.q ≡ get_or bytes 4 0) };

    fn from(bytes: [u8; 5]) -> Self {
        let [lemma, x, y, p, q] = bytes;
        Step {
            lemma: usize::from(lemma),
            x: usize::from(x),
            y: usize::from(y),
            p: usize::from(p),
            q: usize::from(q),
        }
    }
}
