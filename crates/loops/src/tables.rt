// The tables of section 4.
ghost use Rattle.std.specs.Prelude.{◌≡◌, ◌/◌, ◌<◌, ◌≤◌, length};
ghost use Rattle.loops.specs.Tables.{with_entry};

use crate::statements::StatementEntry;

// What the statements tell the checks after them, by statement: the definition of the variable that it works on, the region
// of the variable that it defines, and whether that one is centered. Three tables and not one of entries: each is read, and
// stated (specs/Tables.Table), by itself, with its own value past the end, and two go as slices to `reduces_through_pointer`.
// Arrays and no `ArrayVec`, which is not `Copy`; how many entries are filled is the section's count.
#[derive(Clone, Copy)]
pub struct StatementTables {
    pub operands: [u8; 64],
    pub variable_regions: [u8; 64],
    pub centered: [bool; 64],
}

impl StatementTables {
    // Enters what they take of statement s. Its bound is a clause: s is a place in the section, which the tables do not hold.
    pub fn enter(&mut self, s: usize, entry: StatementEntry)
        requires { s < 64 }
        ensures { self.new ≡ with_entry s entry self.old }
    {
        self.operands[s] = entry.operand;
        self.variable_regions[s] = entry.region;
        self.centered[s] = entry.centered;
    }
}

// The statements of section 4, all passed, and the tables made of them: what loops are judged by (src/parallel.rt).
#[derive(Clone, Copy)]
pub(crate) struct StatementLoops<'a> {
    pub statements: &'a [u8],
    pub operands: &'a [u8],
    pub variable_regions: &'a [u8],
    pub centered: &'a [bool],
    pub ghost few: { length statements.now / 4 ≤ 64 },
}
