// Explains why a piece of a node holds an element.
// Seven parameters: the exported function's (C interface).
#![tactic(auto)]

ghost use Rattle.model.specs.Provenance.{asking};
ghost use Rattle.model.specs.Promises.{ExplanationPromise};

use crate::question::answer_question;
use evaluate::reading::read_inputs;
use model::{Question, Refusal};

mod chain;
mod piece;
mod question;
mod sources;

// Writes the chain of pairs that explains why the piece of the node holds the element, once every refusal is ruled out.
pub fn explain(
    plan: &[u8],
    data: &[u8],
    node: usize,
    piece: usize,
    element: usize,
    nodes: &mut [u16],
    elements: &mut [u16],
) -> Result<usize, Refusal>
    ensures { ExplanationPromise plan.now «data».now (asking node piece element) nodes.old nodes.new elements.old elements.new result }
{
    let inputs = read_inputs(plan, data)?;
    let question = Question {
        node,
        piece,
        element,
    };
    answer_question(&inputs, question, nodes, elements)
}
