// Whether a step is by its lemma.
// What a record says and what a key stands for are premises and no ghost fields: they are of every plan that has the record, and
// no plan is handed in. The sections' bodies are slices handed to their reader (project's form), a lemma's number names its row.
// A key has a byte for x and for y: they are numbers of a `Node` or a `Step`, which hold the bounds, or of `byte_at`.
ghost use Rattle.std.specs.Prelude.{◌≡◌, ℕ, ◌≤◌, ◌<◌};
ghost use Rattle.model.specs.Tests.{◌and◌};
ghost use Rattle.model.specs.Layout.{Plan};
ghost use Rattle.model.specs.Lemmas.{concludes_subset, concludes_disjoint, concludes_complete, is_private_part, private_operand};
ghost use Rattle.expressions.specs.Nodes.{NodeRead};
ghost use Rattle.expressions.specs.Steps.{StepSources, ConclusionKey};
ghost use Rattle.expressions.specs.Licences.{licensed_as, PremiseKeys};

use crate::nodes::node_at;
use crate::records::{Node, Step};
use crate::steps::{Premises, complete_key, disjoint_key, subset_key};
use model::NodeKind;
use primitives::bytes::byte_at;
use primitives::records::{COMPLETE, DISJOINT, map_totality};

// Whether a step with this key concludes SUB(x, y).
#[tactic(auto, using(primitives::proofs::OpenTests::tests_open))]
fn concludes_subset(key: u32, x: usize, y: usize) -> bool
    requires { (x < 256) × (y < 256) }
    ensures { (P : Plan) (t : ℕ) → ConclusionKey P t key → result ≡ concludes_subset P t x y }
{
    key == subset_key(x, y)
}

// Whether it concludes DISJ(x). It and COMP have a function each, as their keys have: the name says more than a parameter.
#[tactic(auto, using(primitives::proofs::OpenTests::tests_open))]
fn concludes_disjoint(key: u32, x: usize) -> bool
    requires { x < 256 }
    ensures { (P : Plan) (t : ℕ) → ConclusionKey P t key → result ≡ concludes_disjoint P t x }
{
    key == disjoint_key(x)
}

// Whether it concludes COMP(x).
#[tactic(auto, using(primitives::proofs::OpenTests::tests_open))]
fn concludes_complete(key: u32, x: usize) -> bool
    requires { x < 256 }
    ensures { (P : Plan) (t : ℕ) → ConclusionKey P t key → result ≡ concludes_complete P t x }
{
    key == complete_key(x)
}

// Whether x is F minus the image under f of (G minus P), where F is the image of P under f and G the preimage of F under f, and p
// is DISJ(P).
#[tactic(auto, using(primitives::proofs::OpenTests::tests_open, crate::proofs::NodeLaws::known_kinds), unfolding(model::specs::Nodes::node_kind_of, model::specs::Lemmas::is_private_part))]
fn is_private_part(nodes: &[u8], x: Node, p: u32) -> bool
    ensures { (P : Plan) (j t : ℕ) → P.nodes ≡ nodes.now → NodeRead P j x → ConclusionKey P t p → result ≡ (is_private_part P j and concludes_disjoint P t (private_operand P j)) }
{
    let shared = node_at(nodes, x.b);
    let rest = node_at(nodes, shared.a);
    (x.kind == NodeKind::Difference)
        & (shared.kind == NodeKind::Image)
        & (rest.kind == NodeKind::Difference)
        & node_at(nodes, x.a).is_made_of(NodeKind::Image, rest.b, shared.b)
        & node_at(nodes, rest.a).is_made_of(NodeKind::Preimage, x.a, shared.b)
        & concludes_disjoint(p, rest.b)
}

// Whether a step of one of the lemmas 5 to 14, which conclude SUB(x, y), is by that lemma.
#[tactic(auto, using(primitives::proofs::OpenTests::tests_open, crate::proofs::NodeLaws::known_kinds), unfolding(model::specs::Nodes::node_kind_of, model::specs::Lemmas::licence, model::specs::Lemmas::licences, model::specs::Lemmas::is_node))]
fn is_subset_licensed(nodes: &[u8], steps: &[u8], step: Step, x: Node, premises: Premises) -> bool
    ensures { (P : Plan) → NodeRead P step.x x → P.nodes ≡ nodes.now → P.steps ≡ steps.now → PremiseKeys P step premises → 5 ≤ step.lemma → step.lemma ≤ 14 → result ≡ licensed_as P step step.lemma }
{
    let Premises { p, q } = premises;
    let y = node_at(nodes, step.y);
    // The y of step p: SUB(x, y) by way of it.
    let middle = byte_at(steps, step.p * 5 + 2);
    match step.lemma {
        5 => step.y == step.x,
        6 => concludes_subset(p, step.x, middle) & concludes_subset(q, middle, step.y),
        7 => (y.kind == NodeKind::Union) & y.is_operand(step.x),
        8 => {
            (x.kind == NodeKind::Union)
                & concludes_subset(p, x.a, step.y)
                & concludes_subset(q, x.b, step.y)
        }
        9 => (x.kind == NodeKind::Intersection) & x.is_operand(step.y),
        10 => {
            (y.kind == NodeKind::Intersection)
                & concludes_subset(p, step.x, y.a)
                & concludes_subset(q, step.x, y.b)
        }
        11 => (x.kind == NodeKind::Difference) & (x.a == step.y),
        12 => x.shares_map(y, NodeKind::Image) & concludes_subset(p, x.a, y.a),
        13 => x.shares_map(y, NodeKind::Preimage) & concludes_subset(p, x.a, y.a),
        14 => {
            (x.kind == NodeKind::Image)
                & concludes_subset(p, x.a, middle)
                & node_at(nodes, middle).is_made_of(NodeKind::Preimage, step.y, x.b)
        }
        _ => false,
    }
}

// Whether a step of one of the 21 lemmas is by that lemma.
#[tactic(auto, using(primitives::proofs::OpenTests::tests_open, crate::proofs::NodeLaws::known_kinds), unfolding(model::specs::Nodes::node_kind_of, model::specs::Lemmas::licence, model::specs::Lemmas::licences))]
pub fn is_licensed(
    maps: &[u8],
    supplied: &[u8],
    nodes: &[u8],
    steps: &[u8],
    step: Step,
    premises: Premises,
) -> bool
    ensures { (P : Plan) → StepSources P maps.now supplied.now nodes.now steps.now → PremiseKeys P step premises → 1 ≤ step.lemma → step.lemma ≤ 21 → result ≡ licensed_as P step step.lemma }
{
    let Premises { p, q } = premises;
    let x = node_at(nodes, step.x);
    match step.lemma {
        1 | 2 => x.kind == NodeKind::Equal,
        3 => x.is_declared(supplied, DISJOINT),
        4 => x.is_declared(supplied, COMPLETE),
        5..=14 => is_subset_licensed(nodes, steps, step, x, premises),
        15 => concludes_disjoint(p, step.y) & concludes_subset(q, step.x, step.y),
        16 => {
            (x.kind == NodeKind::Intersection)
                & (concludes_disjoint(p, x.a) | concludes_disjoint(p, x.b))
        }
        17 => (x.kind == NodeKind::Difference) & concludes_disjoint(p, x.a),
        18 => (x.kind == NodeKind::Preimage) & concludes_disjoint(p, x.a),
        19 => concludes_complete(p, step.y) & concludes_subset(q, step.y, step.x),
        20 => {
            (x.kind == NodeKind::Preimage)
                & (map_totality(maps, x.b) == 1)
                & concludes_complete(p, x.a)
        }
        21 => is_private_part(nodes, x, p),
        _ => false,
    }
}
