// The members of a piece, read off its words.
ghost use Rattle.std.specs.Prelude.{◌≡◌, ◌+◌, ◌≤◌, ◌<◌, ◌++◌};
ghost use Rattle.arrayvec.specs.ArrayVec.{array_vec_len};
ghost use Rattle.model.specs.Words as Words;
ghost use Rattle.listing.specs.Text.{member_text, members_text, longest};

use crate::line::{Line, append_spaced};
use bitsets::words::holds;

// The set whose words stand from the first on: the words of all sets and the first of its own, as `holds` of the definitions
// has it.
#[derive(Clone, Copy)]
pub struct Members<'a> {
    pub words: &'a [u64],
    pub first: usize,
}

impl Members<'_> {
    // Whether the set holds an element; words past the end hold none.
    #[tactic(auto, using(crate::proofs::PastEnd::holds_none, crate::proofs::PastEnd::holds_behind))]
    fn contains(&self, element: usize) -> bool
        ensures { result ≡ Words.holds self.now.words.now self.now.first element }
    {
        let set = self.words.get(self.first..).unwrap_or_default();
        element / 64 < set.len() && holds(set, 0, element)
    }

    // Puts an element behind a line, after a space, if the set holds it.
    fn append_member(&self, line: &mut Line, element: usize)
        requires { (element < 512) × (array_vec_len line.old + 21 ≤ longest) }
        ensures items { line.new.items ≡ line.old.items ++ member_text self.now.words.now self.now.first element }
        ensures few { array_vec_len line.new ≤ array_vec_len line.old + 4 }
    {
        if self.contains(element) {
            append_spaced(line, element);
        }
    }

    // Puts all members behind a line, ascending: a region has at most 512 elements.
    pub fn append_to(&self, line: &mut Line)
        requires { array_vec_len line.old + 2065 ≤ longest }
        ensures items { line.new.items ≡ line.old.items ++ members_text self.now.words.now self.now.first 512 }
        ensures few { array_vec_len line.new ≤ array_vec_len line.old + 2048 }
    {
        for element in 0..512 {
            self.append_member(line, element);
        }
    }
}
