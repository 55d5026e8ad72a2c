// The operators on one piece: its eight words are made from numbers, bytes, or the words of earlier pieces.
// A piece that is written is a place in all words: after `first_chunk_mut().unwrap()` or a loop over `chunks_exact_mut(8)`
// (both tried) a proof knows how many words there are, and not which. One that is read is a place too, as in bitsets: one
// place serves both operands, where slices would say it twice.
// `table` and `set` are no struct: the table is made once for a node and the set once for a piece, so that a struct of both
// would be made anew for each piece.
ghost use Rattle.std.specs.Prelude.{◌≡◌, ◌+◌, ◌*◌, ◌^◌, ◌≤◌, ◌<◌, min, length};
ghost use Rattle.model.specs.Bytes.{u16};
ghost use Rattle.model.specs.Words as Words;
ghost use Rattle.model.specs.Words.{digit, from_bits, word, store};
ghost use Rattle.bitsets.specs.Elements.{between, masked, combined, supplied_elements, bytes_bits, entries_of, through, word_at, PieceOf};
ghost use Rattle.subregions.specs.Operators.{no_word, RangeRoom, PieceBytesRoom, CombinedPieceRoom, EntriesRoom, EntriesAdded, ImagePieceRoom, TargetsTable, OperandSet, ElementsTable, PreimagePieceRoom};

use bitsets::words::{
    SetOperator, bit_of, eight_bytes, inside_bytes, lowest, reverse_bytes, u16_inside, word_between,
};
use std::array;

// The piece at word `at` becomes another. Word by word: `copy_from_slice` would have the other
// piece's words stored first, to be copied from there.
pub fn write_piece(words: &mut [u64], at: usize, piece: &[u64; 8])
    requires { at + 8 ≤ length words.old }
    ensures { words.new ≡ store words.old at 8 (word_at piece.now) }
{
    for w in 0..8 {
        words[at + w] = piece[w];
    }
}

// The piece at word `at` becomes the empty set.
fn clear_piece(words: &mut [u64], at: usize)
    requires { at + 8 ≤ length words.old }
    ensures { words.new ≡ store words.old at 8 no_word }
{
    words[at..at + 8].fill(0);
}

// The piece at word `at` becomes the elements from low up to, not including, high. Only the words that have one are
// made, and where they stay: a piece made elsewhere and copied would wait for its words to be stored.
pub fn write_range(words: &mut [u64], at: usize, low: usize, high: usize)
    requires { RangeRoom words.old at low high }
    ensures { words.new ≡ store words.old at 8 (word (between low high)) }
{
    clear_piece(words, at);
    // By a `while`: a `for` up to `high.div_ceil(64)` is 5 % slower, since its turns don't know that they are below `high`.
    let mut w = low / 64;
    while 64 * w < high {
        words[at + w] = word_between(low, high, w);
        w += 1;
    }
}

// Eight of a piece's bytes; `inside`, where the piece's bytes are all there: tested once for a piece, not for each word.
fn piece_bytes(members: &[u8], at: usize, inside: bool) -> u64
    requires { PieceBytesRoom members.now at inside }
    ensures { result ≡ from_bits 64 (bytes_bits members.now at) }
{
    if inside {
        inside_bytes(members, at)
    } else {
        eight_bytes(members, at)
    }
}

// The set that the bytes of a supplied partition's piece list, within the mask.
pub fn supplied_piece(members: &[u8], masks: &[u64; 8]) -> [u64; 8]
    ensures { PieceOf (masked masks.now (supplied_elements members.now 0)) result }
{
    let inside = members.len() >= 64;
    array::from_fn(|w| reverse_bytes(piece_bytes(members, 8 * w, inside)) & masks[w])
}

// The pieces at a place of two operands combined, within the mask.
pub fn combined_piece<O: SetOperator>(
    left: &[u64],
    right: &[u64],
    masks: &[u64; 8],
    at: usize,
) -> [u64; 8]
    requires { CombinedPieceRoom left.now right.now at }
    ensures { PieceOf (masked masks.now (combined O.combination (Words.holds left.now at) (Words.holds right.now at))) result }
{
    array::from_fn(|w| O::combine(left[at + w], right[at + w]) & masks[w])
}

// The element that an entry leads to; 512 where it leads to none, and no `Option`: element 512 has a spare word, so that no
// entry is tested.
fn target(entries: &[u8], at: usize) -> u16
    requires { at + 2 ≤ length entries.now }
    ensures { result ≡ min (u16 entries.now at) 512 }
{
    u16_inside(entries, at).min(512)
}

// The elements that a map's first `count` entries lead to; how many is asked, since those of later maps may stand behind them.
pub fn targets(entries: &[u8], count: usize) -> [u16; 512]
    requires { (count ≤ 512) × (2 * count ≤ length entries.now) }
    ensures { TargetsTable entries.now count result }
{
    let mut table = [512; 512];
    for k in 0..count {
        table[k] = target(entries, 2 * k);
    }
    table
}

// The elements of a piece of an operand, within the mask, and a spare word for element 512.
pub fn operand_set(operand: &[u64], masks: &[u64; 8], at: usize) -> [u64; 9]
    requires { at + 8 ≤ length operand.now }
    ensures { OperandSet operand.now masks.now at result }
{
    array::from_fn(|w| if w < 8 { operand[at + w] & masks[w] } else { 0 })
}

// Whether a set holds the element that a table has for place k: 1 or 0.
fn member_at(table: &[u16; 512], set: &[u64; 9], k: usize) -> u64
    requires { (k < 512) × ElementsTable table.now }
    ensures { result ≡ digit (through table.now set.now k) }
{
    bit_of(set, 0, usize::from(table[k]))
}

// Word w of the places whose element is in the set, two places at a time from the highest down.
#[tactic(auto, using(crate::proofs::Maps::upper_end, crate::proofs::Maps::upper_two, crate::proofs::Maps::upper_all))]
fn preimage_word(table: &[u16; 512], set: &[u64; 9], w: usize) -> u64
    requires { (w < 8) × ElementsTable table.now }
    ensures { result ≡ word (through table.now set.now) w }
{
    let mut result = 0;
    for pair in (0..32).rev() {
        let place = 64 * w + 2 * pair;
        let upper = (result << 1) | member_at(table, set, place + 1);
        result = (upper << 1) | member_at(table, set, place);
    }
    result
}

// The places whose element is in the set; the words from place `count` on stay 0.
pub fn preimage_piece(table: &[u16; 512], set: &[u64; 9], count: usize) -> [u64; 8]
    requires { PreimagePieceRoom table.now set.now count }
    ensures { PieceOf (through table.now set.now) result }
{
    let mut piece = [0; 8];
    for w in 0..count.div_ceil(64) {
        piece[w] = preimage_word(table, set, w);
    }
    piece
}

// Adds to a set the entries of a word's members; the entry of its first element stands at `start`. A place, and no part of
// the entries: there may be none so far behind, where the word has no member either.
fn add_entries(set: &mut [u64; 9], entries: &[u8], start: usize, members: u64)
    requires { EntriesRoom entries.now start members }
    ensures { EntriesAdded entries.now start members set.old set.new }
{
    // By a `while`: it goes over the bits that are set, and counts nothing.
    let mut rest = members;
    while rest != 0 {
        let e = usize::from(target(entries, start + 2 * lowest(rest)));
        set[e / 64] |= 1 << (e % 64);
        rest &= rest - 1;
    }
}

// The image of the elements within the mask of a piece of an operand.
pub fn image_piece(operand: &[u64], entries: &[u8], masks: &[u64; 8], at: usize) -> [u64; 8]
    requires { ImagePieceRoom operand.now entries.now masks.now at }
    ensures { PieceOf (entries_of 512 entries.now 0 (masked masks.now (Words.holds operand.now at))) result }
{
    // Entries that lead to no element go into a spare word.
    let mut set = [0; 9];
    for k in 0..8 {
        add_entries(&mut set, entries, 128 * k, operand[at + k] & masks[k]);
    }
    *set.first_chunk().unwrap()
}
