// How many elements one set has and another lacks, by the one bits of their words.
// A set is the words of all sets and the place of its first, as `holds` and `ones_lacking` of the definitions have it.
ghost use Rattle.std.specs.Prelude.{◌≡◌, ◌+◌, ◌*◌, ◌≤◌, length};
ghost use Rattle.model.specs.Counting.{sum, ones, without, ones_lacking};

// The number of one bits in a word that another lacks.
#[tactic(auto, using(crate::proofs::Ones::machine_ones, crate::proofs::Ones::ones_few))]
fn ones_without(x: u64, y: u64) -> usize
    ensures { (result ≡ ones (without x y)) × (result ≤ 64) }
{
    // By `as`: there is no `From<u32>` for `usize`, and `try_from` would answer an error that never comes.
    (x & !y).count_ones() as usize
}

// The same of a set's eight words.
#[tactic(auto, using(crate::proofs::Ones::no_words, crate::proofs::Ones::next_word, crate::proofs::Ones::all_words))]
pub fn lacking(words: &[u64], at: usize, from: usize) -> usize
    requires { (at + 8 ≤ length words.now) × (from + 8 ≤ length words.now) }
    ensures { (result ≡ ones_lacking words.now at from) × (result ≤ 512) }
{
    let mut count = 0;
    for w in 0..8 {
        count += ones_without(words[at + w], words[from + w]);
    }
    count
}

// The same of as many sets, eight words each, one behind the other.
#[tactic(auto, using(crate::proofs::Ones::no_words, crate::proofs::Ones::next_word))]
pub fn lacking_pieces(words: &[u64], at: usize, from: usize, pieces: usize) -> usize
    requires { (pieces ≤ 16) × (at + pieces * 8 ≤ length words.now) × (from + pieces * 8 ≤ length words.now) }
    ensures { result ≡ sum pieces (λ i. ones_lacking words.now (at + i * 8) (from + i * 8)) }
{
    let mut count = 0;
    for i in 0..pieces {
        count += lacking(words, at + i * 8, from + i * 8);
    }
    count
}
