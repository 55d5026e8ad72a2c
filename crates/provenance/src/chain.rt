// The chain of pairs that explains a membership.
// Numbers are narrowed by `as`: the bound is proved, and `try_from` would have a case that never comes.
ghost use Rattle.std.specs.Prelude.{◌≡◌, ◌^◌, ◌<◌, length};
ghost use Rattle.model.specs.Provenance.{ends_by};
ghost use Rattle.provenance.specs.Members.{plan_of_piece, data_of_piece, MemberOf, pair_after, pair_asked};
ghost use Rattle.provenance.specs.Chain.{ChainOf, ChainRoom, ChainWritten};

use crate::piece::Piece;
use crate::sources::least_source;
use arrayvec::ArrayVec;
use model::{NodeKind, Pair};
use primitives::bytes::u16_at;

// A pair of the chain as it is written. In 16 bits each, since a chain's 48 places are cleared first: in 64 bits that takes
// four times as long, which is felt in a small plan's answer.
#[derive(Clone, Copy, Debug, Default, PartialEq, Eq)]
pub struct Link {
    pub node: u16,
    pub element: u16,
}

impl Link {
    // A pair whose numbers fit.
    fn of(pair: Pair) -> Self
        requires { (pair.node < 2 ^ 16) × (pair.element < 2 ^ 16) }
        ensures { (result.node ≡ pair.node) × (result.element ≡ pair.element) }
    {
        Link {
            node: pair.node as u16,
            element: pair.element as u16,
        }
    }
}

// Whether a chain ends at a node of this kind. One case for each kind (project's form).
#[tactic(auto, unfolding(model::specs::Provenance::ends_by))]
fn ends_chain(kind: NodeKind) -> bool
    ensures { result ≡ ends_by kind }
{
    match kind {
        NodeKind::Supplied => true,
        NodeKind::Equal => true,
        NodeKind::Union => false,
        NodeKind::Intersection => false,
        NodeKind::Difference => false,
        NodeKind::Image => false,
        NodeKind::Preimage => false,
        NodeKind::Unknown => true,
    }
}

impl Piece<'_> {
    // The pair after a member's: where its node's operator has the element from.
    #[tactic(auto, using(crate::proofs::NextPairs::next_pairs), unfolding(model::specs::Provenance::next_by))]
    fn next_pair(&self, pair: Pair) -> Pair
        requires { MemberOf self.now pair }
        ensures { result ≡ pair_after self.now pair }
    {
        let (a, b) = self.operands(pair.node);
        let element = pair.element;
        match self.kind(pair.node) {
            NodeKind::Union => {
                if self.has(a, element) {
                    Pair { node: a, element }
                } else {
                    Pair { node: b, element }
                }
            }
            NodeKind::Intersection => Pair { node: a, element },
            NodeKind::Difference => Pair { node: a, element },
            NodeKind::Image => Pair {
                node: a,
                // There is one, since the pair is a member's.
                element: least_source(self.set(a), self.entries(b), element).unwrap(),
            },
            NodeKind::Preimage => Pair {
                node: a,
                element: u16_at(self.entries(b), 2 * element),
            },
            NodeKind::Supplied => pair,
            NodeKind::Equal => pair,
            NodeKind::Unknown => pair,
        }
    }

    // The chain from the pair in question to the first that ends it.
    #[tactic(auto, using(crate::proofs::Walks::walks))]
    pub fn trace(&self) -> ArrayVec<Link, 48>
        requires { MemberOf self.now (pair_asked self.now) }
        ensures { ChainOf (plan_of_piece self.now) (data_of_piece self.now) self.now.question result.items }
    {
        let mut pair = Pair {
            node: self.question.node,
            element: self.question.element,
        };
        let mut chain = ArrayVec::new();
        chain.push(Link::of(pair));
        // By a while: along the chain until it ends; nothing is counted.
        while !ends_chain(self.kind(pair.node)) {
            pair = self.next_pair(pair);
            chain.push(Link::of(pair));
        }
        chain
    }
}

// Writes the chain into two slices that have room for it: two, and not one of pairs, since C lends them so.
pub fn write_chain(chain: &[Link], nodes: &mut [u16], elements: &mut [u16])
    requires { ChainRoom chain.now (length nodes.old) (length elements.old) }
    ensures { ChainWritten chain.now nodes.old nodes.new elements.old elements.new }
{
    for (k, link) in chain.iter().enumerate() {
        nodes[k] = link.node;
        elements[k] = link.element;
    }
}
