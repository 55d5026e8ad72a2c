// Sets of elements in words: masks, words combined, and the words that bytes make.
// A set is the words of all sets and the place of its first, as `holds` and `ones_lacking` of the definitions have it.
ghost use Rattle.std.specs.Prelude.{◌≡◌, ◌+◌, ◌/◌, ◌^◌, ◌≤◌, ◌<◌, length, Bool, false};
ghost use Rattle.std.specs.Int.Count.{count_trailing_zeros};
ghost use Rattle.model.specs.Bytes.{u16};
ghost use Rattle.model.specs.Words as Words;
ghost use Rattle.model.specs.Words.{bit, digit, from_bits, word};
ghost use Rattle.bitsets.specs.Elements.{up_to, between, union, intersection, difference, neither-union, neither-intersection, neither-difference, combined_bits, bytes_bits, exchanged_bits, LowerPlaces, reversed_bits, OneBit, PieceOf};

use primitives::lookup::entry_or;
use std::array;

// Word w of the elements below a number.
#[tactic(auto, using(crate::proofs::Elements::below_none, crate::proofs::Elements::below_some, crate::proofs::Elements::below_all, crate::proofs::Elements::some_below))]
pub fn word_below(count: usize, w: usize) -> u64
    requires { w < 8 }
    ensures { result ≡ word (up_to count) w }
{
    let first = 64 * w;
    if count <= first {
        0
    } else if count - first < 64 {
        (1 << (count - first)) - 1
    } else {
        u64::MAX
    }
}

// Word w of the elements from low up to, not including, high.
#[tactic(auto, using(crate::proofs::Elements::between_word))]
pub fn word_between(low: usize, high: usize, w: usize) -> u64
    requires { w < 8 }
    ensures { result ≡ word (between low high) w }
{
    word_below(high, w) & !word_below(low, w)
}

// An operator on two sets, a word at a time.
pub trait SetOperator {
    // Whether the set that is made has an element, by whether either set has it.
    ghost combination: { Bool → Bool → Bool };

    // One word of the set that is made.
    fn combine(x: u64, y: u64) -> u64
        ensures { result ≡ from_bits 64 (combined_bits combination x y) };

    // It has no element that neither has.
    ghost neither: { combination false false ≡ false };
}

#[derive(Clone, Copy)]
pub struct Union;

#[derive(Clone, Copy)]
pub struct Intersection;

#[derive(Clone, Copy)]
pub struct Difference;

#[tactic(auto, using(crate::proofs::Elements::union_word))]
impl SetOperator for Union {
    ghost combination = { union };

    ghost neither = { neither-union };

    fn combine(x: u64, y: u64) -> u64 {
        x | y
    }
}

#[tactic(auto, using(crate::proofs::Elements::intersection_word))]
impl SetOperator for Intersection {
    ghost combination = { intersection };

    ghost neither = { neither-intersection };

    fn combine(x: u64, y: u64) -> u64 {
        x & y
    }
}

#[tactic(auto, using(crate::proofs::Elements::difference_word))]
impl SetOperator for Difference {
    ghost combination = { difference };

    ghost neither = { neither-difference };

    fn combine(x: u64, y: u64) -> u64 {
        x & !y
    }
}

// The eight words of a region's elements.
pub fn region_masks(size: usize) -> [u64; 8]
    ensures { PieceOf (up_to size) result }
{
    array::from_fn(|w| word_below(size, w))
}

// The number in two bytes, the higher one first. Bytes are a slice and a place too: they are read at computed places.
pub fn u16_inside(s: &[u8], at: usize) -> u16
    requires { at + 1 < length s.now }
    ensures { result ≡ u16 s.now at }
{
    u16::from_be_bytes([s[at], s[at + 1]])
}

// The eight bytes at a place as a word, the first lowest, by one read.
#[tactic(auto, using(crate::proofs::ByteOrder::eight_word))]
pub fn inside_bytes(s: &[u8], at: usize) -> u64
    requires { at + 8 ≤ length s.now }
    ensures { result ≡ from_bits 64 (bytes_bits s.now at) }
{
    u64::from_le_bytes(array::from_fn(|i| s[at + i]))
}

// The same; bytes past the end are 0, so that a place may lie there too.
#[tactic(auto, using(crate::proofs::ByteOrder::eight_word))]
pub fn eight_bytes(s: &[u8], at: usize) -> u64
    requires { at < 2 ^ 32 }
    ensures { result ≡ from_bits 64 (bytes_bits s.now at) }
{
    if at + 8 <= s.len() {
        inside_bytes(s, at)
    } else {
        u64::from_le_bytes(array::from_fn(|i| entry_or(s, at + i, 0)))
    }
}

// The bits at the mask's places exchanged with those so many places higher.
#[tactic(auto, using(crate::proofs::ByteOrder::exchanged_word))]
fn exchange(x: u64, mask: u64, by: u64) -> u64
    requires { LowerPlaces mask by }
    ensures { result ≡ from_bits 64 (exchanged_bits mask by x) }
{
    ((x >> by) & mask) | ((x & mask) << by)
}

// The bits of each byte in reverse order. `x.reverse_bits().swap_bytes()` says it in less, but the library's `reverse_bits`
// is a loop of 64 turns, one for each bit; this has no loop.
#[tactic(auto, using(crate::proofs::ByteOrder::ones_places, crate::proofs::ByteOrder::twos_places, crate::proofs::ByteOrder::fours_places, crate::proofs::ByteOrder::reversed_word))]
pub fn reverse_bytes(x: u64) -> u64
    ensures { result ≡ from_bits 64 (reversed_bits x) }
{
    let y = exchange(x, 0x5555_5555_5555_5555, 1);
    let z = exchange(y, 0x3333_3333_3333_3333, 2);
    exchange(z, 0x0F0F_0F0F_0F0F_0F0F, 4)
}

// Whether a word has the bit of a place.
#[tactic(auto, using(crate::proofs::Elements::place_tested))]
pub fn has_bit(word: u64, place: usize) -> bool
    requires { place < 64 }
    ensures { result ≡ bit word place }
{
    (word >> place) & 1 == 1
}

// Whether the set whose words stand from `at` on holds an element.
#[tactic(auto, unfolding(model::specs::Words::holds))]
pub fn holds(words: &[u64], at: usize, element: usize) -> bool
    requires { at + element / 64 < length words.now }
    ensures { result ≡ Words.holds words.now at element }
{
    has_bit(words[at + element / 64], element % 64)
}

// The same as 1 or 0, for loops that gather bits.
pub fn bit_of(words: &[u64], at: usize, element: usize) -> u64
    requires { at + element / 64 < length words.now }
    ensures { result ≡ digit (Words.holds words.now at element) }
{
    u64::from(holds(words, at, element))
}

// The word of one bit; of none for a place that a word does not have: a word and no `Option`, since words are joined.
#[tactic(auto, using(crate::proofs::Elements::bit_shifted, crate::proofs::Elements::no_bit))]
pub fn one_bit(place: usize) -> u64
    ensures { OneBit place result }
{
    if place < 64 { 1 << place } else { 0 }
}

// The place of a word's lowest member; 64, as the machine counts, where it has none: whoever asks has a member.
pub fn lowest(word: u64) -> usize
    ensures { result ≡ count_trailing_zeros 64 word }
{
    // By `as`: there is no `From<u32>` for `usize`.
    word.trailing_zeros() as usize
}
