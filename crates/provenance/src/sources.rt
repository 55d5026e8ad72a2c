// The least element of a set whose entry is a given element.
ghost use Rattle.std.specs.Prelude.{◌/◌, length};
ghost use Rattle.provenance.specs.Sources.{bit_leads_to, leads_to, FirstOf, WordRoom, SourcesRoom};

use bitsets::words::{lowest, u16_inside};

// The least member of a word whose entry is this element.
fn least_in_word(members: u64, entries: &[u8], element: usize) -> Option<usize>
    requires { WordRoom members entries.now }
    ensures { FirstOf (bit_leads_to members entries.now element) 64 result }
{
    let mut rest = members;
    // By a while: it goes over the bits that are set, and counts nothing.
    while rest != 0 {
        let place = lowest(rest);
        if usize::from(u16_inside(entries, 2 * place)) == element {
            return Some(place);
        }
        rest &= rest - 1;
    }
    None
}

// The least element that the set holds and whose entry is this element.
#[tactic(auto, using(crate::proofs::LeastSources::sources))]
pub fn least_source(set: &[u64], entries: &[u8], element: usize) -> Option<usize>
    requires { SourcesRoom set.now entries.now }
    ensures { FirstOf (leads_to set.now entries.now element) (length entries.now / 2) result }
{
    // Not by `find_map`: its closure would have to require, beside `w`'s bound, the room of the set and how many words there are.
    for w in 0..entries.len().div_ceil(128) {
        if let Some(place) = least_in_word(set[w], &entries[128 * w..], element) {
            return Some(64 * w + place);
        }
    }
    None
}
