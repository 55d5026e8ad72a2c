// Fills the lent words, node by node.
ghost use Rattle.std.specs.Prelude.{◌≡◌, length};
ghost use Rattle.model.specs.Bytes.{Bytes};
ghost use Rattle.model.specs.Layout.{Plan};
ghost use Rattle.model.specs.DataSets.{data_of};
ghost use Rattle.subregions.specs.Fill.{node_filled, span_filled, FillSources, FillReady, NodeSources, NodeReady};

use crate::Span;
use crate::pieces::{fill_combined, fill_equal, fill_image, fill_preimage, fill_supplied};
use crate::sources::{Sources, part_from};
use bitsets::words::{Difference, Intersection, Union, has_bit};
use model::NodeKind;
use primitives::lookup::entry_or;
use primitives::records::{node_kind, node_operands};

// Fills node j from its operands' words. The sizes of the nodes' regions come as a table: whoever has that needs no regions.
// Each of the three operators on two sets has a loop of its own, so that the compiler combines a piece's words two at a time
// without a test.
pub fn fill_node(words: &mut [u64], sources: &Sources, node_sizes: &[usize], span: Span, j: usize)
    requires { NodeReady sources.now node_sizes.now span (length words.old) j }
    ensures { (P : Plan) (d : Bytes) → NodeSources P d sources.now node_sizes.now span (length words.old) j → words.new ≡ node_filled P (data_of d) span words.old j }
{
    let kind = node_kind(sources.nodes, j);
    let (a, b) = node_operands(sources.nodes, j);
    let size = entry_or(node_sizes, j, 0);
    let count = span.count;
    let (earlier, own) = words.split_at_mut(j * count * 8);
    let left = part_from(earlier, a * count * 8);
    let right = b * count * 8;
    match kind {
        NodeKind::Supplied => fill_supplied(own, sources.partition_members(a), size, span),
        NodeKind::Equal => fill_equal(own, size, span),
        NodeKind::Union => {
            fill_combined::<Union>(own, left, part_from(earlier, right), size, count)
        }
        NodeKind::Intersection => {
            fill_combined::<Intersection>(own, left, part_from(earlier, right), size, count)
        }
        NodeKind::Difference => {
            fill_combined::<Difference>(own, left, part_from(earlier, right), size, count)
        }
        NodeKind::Image => {
            let elements = entry_or(node_sizes, a, 0);
            fill_image(own, left, sources.map_entries(b), elements, count)
        }
        NodeKind::Preimage => {
            let a_size = entry_or(node_sizes, a, 0);
            fill_preimage(own, left, sources.map_entries(b), size, a_size, count)
        }
        NodeKind::Unknown => {}
    }
}

// Fills the span's nodes in order, those that are needed.
pub fn fill_nodes(words: &mut [u64], sources: &Sources, span: Span)
    requires { FillReady sources.now span (length words.old) }
    ensures { (P : Plan) (d : Bytes) → FillSources P d sources.now span (length words.old) → words.new ≡ span_filled P (data_of d) span words.old }
{
    let node_sizes = sources.node_sizes(span.nodes);
    for j in 0..span.nodes {
        if has_bit(span.needed, j) {
            fill_node(words, sources, &node_sizes, span, j);
        }
    }
}
