// Which loops can run in parallel, by the classes of accesses that each region and field has in a loop.
// What is known of statements and tables (`LoopsKnown`, `PointersKnown`) is of every plan that has them: no field holds a plan.
// That a statement is there is a clause: its number is a place in the section, which the struct holds or which is handed in.
// `check_loops`, `reduces_through_pointer` and what that calls take slices: who has the tables need not have them as arrays.
ghost use Rattle.std.specs.Prelude.{◌≡◌, ◌/◌, ◌^◌, ◌<◌, ◌≤◌, length};
ghost use Rattle.model.specs.Tests.{Is};
ghost use Rattle.model.specs.Layout.{Plan, statement_count};
ghost use Rattle.model.specs.Statements.{opens, loop};
ghost use Rattle.model.specs.Parallel.{parallelizable, loop_check, reduces_through_pointer};
ghost use Rattle.model.specs.Verdict.{loops_check};
ghost use Rattle.loops.specs.Parallel.{Within, access_at, LoopsKnown, LoopsOf, LoopSpan, target_number, class, compatible, entered, admitted, PointersKnown, pointer_reduction};

use crate::kinds::{access_of, is_access, is_reduce, opens_loop};
use crate::statements::{kind_at, statement_at};
use crate::tables::StatementLoops;
use model::{Access, Refusal};
use primitives::bytes::byte_at;
use primitives::lookup::entry_or;
use primitives::outcomes::require;
use std::ops::Range;

// What a statement accesses: how, which region and field, through a centered variable or not, and with which operator.
#[derive(Clone, Copy)]
pub struct LoopAccess {
    pub access: Access,
    pub region: usize,
    pub field: u8,
    pub centered: bool,
    pub operator: u8,
}

// The classes of accesses, a bit each and no enum: what is seen of a region and field is a byte, entered by an or and judged by
// masks, so that a loop takes one pass and 128 bytes.
const CENTERED_READ: u8 = 1;

const POINTER_READ: u8 = 2;

const CENTERED_CHANGE: u8 = 4;

const POINTER_WRITE: u8 = 8;

// By the first operator; the others' follow.
const POINTER_REDUCTION: u8 = 16;

// Accesses through pointers.
const THROUGH_POINTERS: u8 = !(CENTERED_READ | CENTERED_CHANGE);

// Writes and reductions.
const CHANGES: u8 = !(CENTERED_READ | POINTER_READ);

// Whether accesses of these classes can share a region and field: nothing goes through a pointer, nothing is changed, or
// all are reductions through pointers by one operator.
#[tactic(auto, using(crate::proofs::Classes::byte_rule))]
fn is_compatible(classes: u8) -> bool
    ensures { result ≡ compatible classes }
{
    // `|` and no `matches!`, whose cases would have to be told apart in an answer.
    let one_operator = (classes == 16) | (classes == 32) | (classes == 64) | (classes == 128);
    (classes & THROUGH_POINTERS == 0) | (classes & CHANGES == 0) | one_operator
}

impl LoopAccess {
    // The number of its region and field, of 16 regions with 8 fields each. Numbers of a plan are below those, and the
    // remainders change none; they keep the table's bound for every byte.
    #[tactic(auto, unfolding(crate::specs::Parallel::target_number))]
    fn target_number(self) -> usize
        ensures { (result ≡ target_number self) × (result < 128) }
    {
        self.region % 16 * 8 + usize::from(self.field % 8)
    }

    // Its class, as a bit.
    #[tactic(auto, using(crate::proofs::Classes::operator_bit), unfolding(crate::specs::Parallel::class, crate::specs::Parallel::class_by, model::specs::Tests::pick))]
    fn class_bit(self) -> u8
        ensures { result ≡ 2 ^ class self }
    {
        match (self.access, self.centered) {
            (Access::Nothing, _) => CENTERED_READ,
            (Access::Reads, true) => CENTERED_READ,
            (Access::Reads, false) => POINTER_READ,
            (Access::Writes, true) => CENTERED_CHANGE,
            (Access::Writes, false) => POINTER_WRITE,
            (Access::Reduces, true) => CENTERED_CHANGE,
            (Access::Reduces, false) => POINTER_REDUCTION << (self.operator % 4),
        }
    }

    // Enters it among those of its region and field; whether the loop can be parallelizable with it.
    #[tactic(auto, using(crate::proofs::Classes::not_entered, crate::proofs::Classes::entered_is, crate::proofs::Classes::not_asked, crate::proofs::Classes::admitted_is))]
    fn enter(self, seen: &mut [u8; 128]) -> bool
        ensures { (seen.new ≡ entered self seen.old) × (result ≡ admitted self seen.new) }
    {
        if !is_access(self.access) {
            return true;
        }
        let target = self.target_number();
        let classes = seen[target] | self.class_bit();
        seen[target] = classes;
        is_compatible(classes)
    }
}

// The statements of the loop that statement f opens: up to the next that opens a loop, or to the last.
fn loop_statements(statements: &[u8], f: usize) -> Range<usize>
    requires { Within statements.now f }
    ensures { (result.start ≡ f) × (result.end ≤ length statements.now / 4) × ((P : Plan) → P.statements ≡ statements.now → Is (opens P f) → LoopSpan P f result.end) }
{
    let count = statements.len() / 4;
    let end = (f + 1..count)
        .find(|t| opens_loop(kind_at(statements, *t)))
        .unwrap_or(count);
    f..end
}

impl StatementLoops<'_> {
    // The access of statement s.
    fn access(&self, s: usize) -> LoopAccess
        requires { s < length self.now.statements.now / 4 }
        ensures { (P : Plan) → LoopsOf P self.now → result ≡ access_at P s }
    {
        let statement = statement_at(self.statements, s);
        // In this order: with the operand looked up first, section 4 takes a fifth longer on a loop of 64 statements.
        let access = access_of(statement.kind);
        let field = statement.field();
        let operand = byte_at(self.operands, s);
        LoopAccess {
            access,
            region: byte_at(self.variable_regions, operand),
            field,
            centered: entry_or(self.centered, operand, false),
            operator: statement.c,
        }
    }

    // Whether the loop that statement f opens is parallelizable, in one pass.
    fn is_parallelizable(&self, f: usize) -> bool
        requires { f < length self.now.statements.now / 4 }
        ensures { (P : Plan) → LoopsOf P self.now → Is (opens P f) → result ≡ parallelizable P f }
    {
        // The classes of the accesses so far, by region and field.
        let mut seen = [0; 128];
        for s in loop_statements(self.statements, f) {
            if !self.access(s).enter(&mut seen) {
                return false;
            }
        }
        true
    }

    // The check of statement f: a loop that it opens is parallelizable.
    #[tactic(auto, using(primitives::proofs::OpenTests::tests_open), unfolding(model::specs::Parallel::loop_check, model::specs::Statements::opens, model::specs::Outcomes::require))]
    fn check_loop(&self, f: usize) -> Result<(), Refusal>
        requires { f < length self.now.statements.now / 4 }
        ensures { (P : Plan) → LoopsOf P self.now → result ≡ loop_check P f }
    {
        if !opens_loop(kind_at(self.statements, f)) {
            return Ok(());
        }
        let parallel = self.is_parallelizable(f);
        require(parallel, Refusal::NotParallelizable(f))
    }
}

// The check of the loops, after section 4, by its statements and the tables made of them.
#[tactic(auto, using(primitives::proofs::Scanning::scanned))]
pub fn check_loops(
    statements: &[u8],
    operands: &[u8],
    variable_regions: &[u8],
    centered: &[bool],
) -> Result<(), Refusal>
    requires { length statements.now / 4 ≤ 64 }
    ensures { (P : Plan) → LoopsKnown P statements.now operands.now variable_regions.now centered.now → result ≡ loops_check P }
{
    let loops = StatementLoops {
        statements,
        operands,
        variable_regions,
        centered,
    };
    // By `for` and `?`: `try_for_each` leaves the result open, since the library has no lemma of it over a range.
    for f in 0..statements.len() / 4 {
        loops.check_loop(f)?;
    }
    Ok(())
}

// Whether statement s is a reduction through a variable that is not centered.
fn is_pointer_reduction(statements: &[u8], operands: &[u8], centered: &[bool], s: usize) -> bool
    requires { s < 64 }
    ensures { (P : Plan) → PointersKnown P statements.now operands.now centered.now → s < statement_count P → result ≡ pointer_reduction P (loop P s) s }
{
    let access = access_of(kind_at(statements, s));
    let operand = byte_at(operands, s);
    is_reduce(access) & !entry_or(centered, operand, false)
}

// Whether the loop that statement f opens reduces through a pointer.
pub fn reduces_through_pointer(
    statements: &[u8],
    operands: &[u8],
    centered: &[bool],
    f: usize,
) -> bool
    requires { Within statements.now f }
    ensures { (P : Plan) → PointersKnown P statements.now operands.now centered.now → Is (opens P f) → result ≡ reduces_through_pointer P f }
{
    loop_statements(statements, f).any(|s| is_pointer_reduction(statements, operands, centered, s))
}
