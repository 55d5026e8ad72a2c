// The variables of a loop, as its statements define them.
ghost use Rattle.std.specs.Prelude.{◌≡◌, get_or};
ghost use Rattle.loops.specs.Statements.{variables_after};

use crate::kinds::{defines_variable, opens_loop};
use model::StatementKind;
use primitives::lookup::entry_or;

// How many there are, and the statement that defines each: sixteen at most, in memory of that size. An array and no `ArrayVec`:
// what an earlier loop defined is read past `count` too, as the definition has it, before its statement is refused.
#[derive(Clone, Copy)]
pub struct Variables {
    pub count: usize,
    pub definitions: [u8; 16],
}

impl Variables {
    // The statement that defined variable v last, in this loop or an earlier one; 0 where none did.
    pub fn definition(&self, v: u8) -> u8
        ensures { result ≡ get_or self.now.definitions v 0 }
    {
        entry_or(&self.definitions, usize::from(v), 0)
    }

    // Enters the variable that statement s defines: a FOR's own is the first, a definition's the next. A seventeenth is not
    // kept.
    #[tactic(auto, using(primitives::proofs::OpenTests::tests_open, primitives::proofs::OpenTests::pick_is), unfolding(crate::specs::Statements::variables_after))]
    pub fn enter(&mut self, kind: StatementKind, s: u8)
        ensures { self.new ≡ variables_after kind s self.old }
    {
        if opens_loop(kind) {
            self.definitions[0] = s;
            self.count = 1;
        } else if defines_variable(kind) && self.count < 16 {
            self.definitions[self.count] = s;
            self.count += 1;
        }
    }
}
