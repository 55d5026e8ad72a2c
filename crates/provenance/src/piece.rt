// The words of one piece, from which a membership is explained.
ghost use Rattle.provenance.specs.Piece.{PieceHeld};

use bitsets::words::holds;
use evaluate::inputs::Inputs;
use model::{NodeKind, Question};
use primitives::records::{node_kind, node_operands};

// The piece of each node up to the one asked about, of what the inputs say: node j's set stands at word j * 8.
#[derive(Clone, Copy)]
pub struct Piece<'a> {
    pub inputs: &'a Inputs<'a>,
    pub question: Question,
    pub words: &'a [u64],
    pub ghost held: { PieceHeld inputs.now question words.now },
}

// Each method requires that its node is not past the one asked about: the node is a place in the words, and comes with each call.
// `inputs` is put into a variable first: a field behind a reference that is itself a field is read only so.
impl Piece<'_> {
    ghost use Rattle.std.specs.Prelude.{◌≡◌, ◌≤◌, ◌<◌};
    ghost use Rattle.model.specs.Layout.{map_count, node_a, node_b};
    ghost use Rattle.model.specs.Nodes.{node_kind_at};
    ghost use Rattle.model.specs.Membership.{member};
    ghost use Rattle.dataset.specs.Entries.{EntriesOf};
    ghost use Rattle.provenance.specs.Members.{plan_of_piece, data_of_piece, SetOf};

    // The kind of a node, of those whose words are there.
    pub fn kind(&self, node: usize) -> NodeKind
        requires { node ≤ self.now.question.node }
        ensures { result ≡ node_kind_at (plan_of_piece self.now) node }
    {
        let inputs = self.inputs;
        node_kind(inputs.reading.sections.nodes, node)
    }

    // The operands of a node.
    pub fn operands(&self, node: usize) -> (usize, usize)
        requires { node ≤ self.now.question.node }
        ensures these { (result.0 ≡ node_a (plan_of_piece self.now) node) × (result.1 ≡ node_b (plan_of_piece self.now) node) }
        ensures bytes { (result.0 < 256) × (result.1 < 256) }
    {
        let inputs = self.inputs;
        node_operands(inputs.reading.sections.nodes, node)
    }

    // The eight words of a node's set.
    #[tactic(auto, using(crate::proofs::Parts::node_set))]
    pub fn set(&self, node: usize) -> &[u64]
        requires { node ≤ self.now.question.node }
        ensures { SetOf self.now node result.now }
    {
        &self.words[node * 8..node * 8 + 8]
    }

    // The entries of a map.
    pub fn entries(&self, map: usize) -> &[u8]
        requires { map < map_count (plan_of_piece self.now) }
        ensures { EntriesOf (plan_of_piece self.now) (data_of_piece self.now) map result.now }
    {
        let inputs = self.inputs;
        inputs.layout.map_entries(inputs.reading.sections.maps, map)
    }

    // Whether the piece of a node holds an element.
    pub fn has(&self, node: usize, element: usize) -> bool
        requires { (node ≤ self.now.question.node) × (element < 512) }
        ensures { result ≡ member (plan_of_piece self.now) (data_of_piece self.now) node self.now.question.piece element }
    {
        holds(self.words, node * 8, element)
    }
}
