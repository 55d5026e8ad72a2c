// A question about inputs: whether what it names exists, and the chain that answers it.
// `(inputs, question)` are two parameters until there are words, when `Piece` holds them: every entry point has inputs, and a
// struct of both would put `self.now` before each in every clause.
// `nodes` and `elements` are two slices, and not one of pairs nor a struct of the two: the C interface lends them as two, and
// they are written as two.
ghost use Rattle.std.specs.Prelude.{◌≡◌, ◌≤◌, length};
ghost use Rattle.model.specs.Tests.{◌and◌, ◌≤?◌};
ghost use Rattle.evaluate.specs.Inputs.{plan_given, data_given};
ghost use Rattle.provenance.specs.Question.{existence_check, ExistingReady, Answered};

use crate::chain::{Link, write_chain};
use crate::piece::Piece;
use evaluate::inputs::Inputs;
use evaluate::words::{fill_piece, sources_of};
use model::{Question, Refusal};
use primitives::outcomes::require;

// Whether node, piece and element exist, in this order.
#[tactic(auto, using(primitives::proofs::Stages::stages, primitives::proofs::OpenTests::tests_open))]
fn check_existence(inputs: &Inputs, question: Question) -> Result<(), Refusal>
    ensures { result ≡ existence_check (plan_given inputs.now) (data_given inputs.now) question }
{
    let nodes = inputs.reading.node_count();
    require(question.node < nodes, Refusal::NotFound(1))?;
    require(question.piece < inputs.layout.pieces, Refusal::NotFound(2))?;
    let size = sources_of(inputs).node_size(question.node);
    require(question.element < size, Refusal::NotFound(3))
}

// Whether both slices have room for the chain.
#[tactic(auto, using(primitives::proofs::OpenTests::tests_open))]
fn have_room(chain: &[Link], nodes: &[u16], elements: &[u16]) -> bool
    ensures { result ≡ (length chain.now ≤? length nodes.now and length chain.now ≤? length elements.now) }
{
    (chain.len() <= nodes.len()) & (chain.len() <= elements.len())
}

// Answers a question about what exists, by way of words for the nodes up to the one asked about: it is a member, and both
// slices have room for the chain, which is then written.
#[tactic(auto, using(crate::proofs::Questions::questions))]
fn answer_with<const WORDS: usize>(
    inputs: &Inputs,
    question: Question,
    nodes: &mut [u16],
    elements: &mut [u16],
) -> Result<usize, Refusal>
    requires { ExistingReady inputs.now question WORDS × (WORDS ≤ 384) }
    ensures { Answered (plan_given inputs.now) (data_given inputs.now) question nodes.old nodes.new elements.old elements.new result }
{
    let mut words = [0u64; WORDS];
    fill_piece(inputs, question.node, question.piece, &mut words);
    let piece = Piece {
        inputs,
        question,
        words: &words,
    };
    let member = piece.has(question.node, question.element);
    require(member, Refusal::NotFound(4))?;
    let pairs = piece.trace();
    let chain = pairs.as_slice();
    require(
        have_room(chain, nodes, elements),
        Refusal::OutputTooSmall(chain.len()),
    )?;
    write_chain(chain, nodes, elements);
    Ok(chain.len())
}

// Answers the question: what it names exists, and then as above. Clearing words for 48 nodes is felt in a small plan's
// answer, so few are taken where few are enough.
pub fn answer_question(
    inputs: &Inputs,
    question: Question,
    nodes: &mut [u16],
    elements: &mut [u16],
) -> Result<usize, Refusal>
    ensures { Answered (plan_given inputs.now) (data_given inputs.now) question nodes.old nodes.new elements.old elements.new result }
{
    check_existence(inputs, question)?;
    if question.node < 8 {
        answer_with::<64>(inputs, question, nodes, elements)
    } else {
        answer_with::<384>(inputs, question, nodes, elements)
    }
}
