// The operators on a node's pieces, one after the other: eight words each, from the first of a node's words on.
// Words, count and size are parameters each: the words are lent anew for each node (project's form), and size means another
// region in each.
ghost use Rattle.std.specs.Prelude.{◌≡◌, ℕ, ◌+◌, ◌*◌, ◌≤◌, ◌<◌, min, length, drop};
ghost use Rattle.model.specs.Words.{holds, store};
ghost use Rattle.bitsets.specs.Elements.{masked, combined, supplied_elements, entries_of, PieceOf};
ghost use Rattle.subregions.specs.Operators.{CombinedPieceRoom, ImagePieceRoom, TargetsRoom, PreimagePieceOf};
ghost use Rattle.subregions.specs.Pieces.{piece_words, pieces_from, PiecesMade, supplied_pieces, equal_pieces, combined_pieces, image_pieces, preimage_pieces, SuppliedRoom, EqualRoom, CombinedRoom, ImageRoom, PreimageRoom};

use crate::Span;
use crate::operators::{
    combined_piece, image_piece, operand_set, preimage_piece, supplied_piece, targets, write_piece,
    write_range,
};
use crate::sources::part_from;
use bitsets::words::{SetOperator, region_masks};

// The first `count` pieces become what is made for each.
fn fill_pieces<F: Fn(usize) -> [u64; 8]>(words: &mut [u64], count: usize, piece: F)
    requires room { count * 8 ≤ length words.old }
    requires callable { (i : ℕ) → i < count → F.pre piece i }
    ensures { PiecesMade (F.post piece) words.old count words.new }
{
    for i in 0..count {
        write_piece(words, i * 8, &piece(i));
    }
}

// The span's pieces of a supplied partition.
pub fn fill_supplied(words: &mut [u64], members: &[u8], size: usize, span: Span)
    requires { SuppliedRoom words.old size span }
    ensures { words.new ≡ store words.old 0 (span.count * 8) (piece_words (pieces_from span.first (supplied_pieces members.now size))) }
{
    let masks = region_masks(size);
    let bytes = size.div_ceil(8);
    let first = span.first;
    fill_pieces(
        words,
        span.count,
        |i: usize| -> [u64; 8]
            requires { (first + i < 16) × (bytes ≤ 64) }
            ensures { PieceOf (masked masks (supplied_elements (drop ((first + i) * bytes) members.entry.now) 0)) result }
        { supplied_piece(part_from(members, (first + i) * bytes), &masks) },
    );
}

// Where a piece of an equal partition starts: the first pieces are one element longer.
fn equal_start(quotient: usize, remainder: usize, i: usize) -> usize
    requires { (quotient ≤ 512) × (i ≤ 16) }
    ensures { result ≡ quotient * i + min i remainder }
{
    quotient * i + i.min(remainder)
}

// The span's pieces of an equal partition, each written where it stays, from where the one before ended.
pub fn fill_equal(words: &mut [u64], size: usize, span: Span)
    requires { EqualRoom words.old size span }
    ensures { words.new ≡ store words.old 0 (span.count * 8) (piece_words (pieces_from span.first (equal_pieces size span.pieces))) }
{
    let pieces = span.pieces;
    let first = span.first;
    let quotient = size / pieces;
    let remainder = size % pieces;
    let mut low = equal_start(quotient, remainder, first);
    for i in 0..span.count {
        let high = equal_start(quotient, remainder, first + i + 1);
        write_range(words, i * 8, low, high);
        low = high;
    }
}

// The pieces of two operands combined, within a region's size.
pub fn fill_combined<O: SetOperator>(
    words: &mut [u64],
    left: &[u64],
    right: &[u64],
    size: usize,
    count: usize,
)
    requires { CombinedRoom words.old left.now right.now count }
    ensures { words.new ≡ store words.old 0 (count * 8) (piece_words (combined_pieces left.now right.now O.combination size)) }
{
    let masks = region_masks(size);
    fill_pieces(
        words,
        count,
        |i: usize| -> [u64; 8]
            requires { CombinedPieceRoom left.now right.now (i * 8) }
            ensures { PieceOf (masked masks (combined O.combination (holds left.entry.now (i * 8)) (holds right.entry.now (i * 8)))) result }
        { combined_piece::<O>(left, right, &masks, i * 8) },
    );
}

// The images of an operand's pieces under the entries of a map, of which its region has as many as elements.
pub fn fill_image(words: &mut [u64], operand: &[u64], entries: &[u8], elements: usize, count: usize)
    requires { ImageRoom words.old operand.now entries.now elements count }
    ensures { words.new ≡ store words.old 0 (count * 8) (piece_words (image_pieces operand.now entries.now elements)) }
{
    let masks = region_masks(elements);
    fill_pieces(
        words,
        count,
        |i: usize| -> [u64; 8]
            requires { ImagePieceRoom operand.now entries.now masks (i * 8) }
            ensures { PieceOf (entries_of 512 entries.entry.now 0 (masked masks (holds operand.entry.now (i * 8)))) result }
        { image_piece(operand, entries, &masks, i * 8) },
    );
}

// The preimages of the pieces of an operand in a region of a size, under the entries of a map from a region of so many
// elements.
pub fn fill_preimage(
    words: &mut [u64],
    operand: &[u64],
    entries: &[u8],
    elements: usize,
    size: usize,
    count: usize,
)
    requires { PreimageRoom words.old operand.now entries.now elements size count }
    ensures { words.new ≡ store words.old 0 (count * 8) (piece_words (preimage_pieces operand.now entries.now elements size)) }
{
    let masks = region_masks(size);
    let table = targets(entries, elements);
    fill_pieces(
        words,
        count,
        |i: usize| -> [u64; 8]
            requires { (i * 8 + 8 ≤ length operand.now) × TargetsRoom table elements }
            ensures { PreimagePieceOf operand.entry.now masks table (i * 8) result }
        { preimage_piece(&table, &operand_set(operand, &masks, i * 8), elements) },
    );
}
