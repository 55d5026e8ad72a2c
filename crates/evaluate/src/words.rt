// The words of an evaluation.
ghost use Rattle.std.specs.Prelude.{◌≡◌, ◌+◌, ◌≤◌, length};
ghost use Rattle.model.specs.Evaluation.{words_needed, filled_words};
ghost use Rattle.subregions.specs.Fill.{SpanFits, span_filled};
ghost use Rattle.evaluate.specs.Inputs.{plan_given, data_given};
ghost use Rattle.evaluate.specs.Words.{SourcesOf, WantedReady, WantedFilled, PieceReady, piece_filled};

use crate::inputs::Inputs;
use subregions::Span;
use subregions::fill::fill_nodes;
use subregions::needed::{ALL_NODES, needed_nodes};
use subregions::sources::Sources;

// What the nodes' sets are read from.
pub fn sources_of<'a>(inputs: &'a Inputs<'_>) -> Sources<'a>
    ensures { SourcesOf inputs.now result }
{
    Sources {
        nodes: inputs.reading.sections.nodes,
        node_regions: &inputs.reading.node_regions,
        sizes: inputs.layout.sizes,
        entries: inputs.layout.entries,
        members: inputs.layout.members,
        entry_starts: &inputs.layout.entry_starts,
        member_starts: &inputs.layout.member_starts,
    }
}

// How many words all nodes need.
pub fn words_needed(inputs: &Inputs) -> usize
    ensures { result ≡ words_needed (plan_given inputs.now) (data_given inputs.now) }
{
    inputs.reading.node_count() * inputs.layout.pieces * 8
}

// Fills the words of a span of the inputs.
fn fill_span(inputs: &Inputs, span: Span, words: &mut [u64])
    requires { SpanFits (plan_given inputs.now) (data_given inputs.now) span (length words.old) }
    ensures { words.new ≡ span_filled (plan_given inputs.now) (data_given inputs.now) span words.old }
{
    fill_nodes(words, &sources_of(inputs), span);
}

// Fills the words of every node.
pub fn fill_words(inputs: &Inputs, words: &mut [u64])
    requires { words_needed (plan_given inputs.now) (data_given inputs.now) ≤ length words.old }
    ensures { words.new ≡ filled_words (plan_given inputs.now) (data_given inputs.now) words.old }
{
    let pieces = inputs.layout.pieces;
    let span = Span {
        nodes: inputs.reading.node_count(),
        needed: ALL_NODES,
        pieces,
        first: 0,
        count: pieces,
    };
    fill_span(inputs, span, words);
}

// Fills the words of the wanted nodes, bit j for node j, and of those that they are made of, among the first `nodes`.
pub fn fill_wanted(inputs: &Inputs, nodes: usize, wanted: u64, words: &mut [u64])
    requires { WantedReady inputs.now nodes (length words.old) }
    ensures { WantedFilled (plan_given inputs.now) (data_given inputs.now) nodes wanted (length words.old) words.new }
{
    let pieces = inputs.layout.pieces;
    let span = Span {
        nodes,
        needed: needed_nodes(inputs.reading.sections.nodes, nodes, wanted),
        pieces,
        first: 0,
        count: pieces,
    };
    fill_span(inputs, span, words);
}

// Fills one piece of each node up to the one asked for, eight words a node.
pub fn fill_piece(inputs: &Inputs, node: usize, piece: usize, words: &mut [u64])
    requires { PieceReady inputs.now node piece (length words.old) }
    ensures { words.new ≡ piece_filled (plan_given inputs.now) (data_given inputs.now) piece (node + 1) words.old }
{
    let span = Span {
        nodes: node + 1,
        needed: ALL_NODES,
        pieces: inputs.layout.pieces,
        first: piece,
        count: 1,
    };
    fill_span(inputs, span, words);
}
