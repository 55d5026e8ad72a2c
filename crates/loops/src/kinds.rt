// What the kind of a statement says, one case for each kind: a table with no case for the rest is the project's form, so that a
// new kind is asked for everywhere.
ghost use Rattle.std.specs.Prelude.{◌≡◌};
ghost use Rattle.model.specs.Statements.{kind_of, opens_loop, defines_variable, access_of, is_access};
ghost use Rattle.model.specs.Parallel.{is_reduce};

use model::{Access, StatementKind};

// The kind that a number stands for. A function for statements and one for nodes (`primitives::records::node_kind_of`): one for
// both would take a trait that says of each enum what its definition is, longer than the two.
#[tactic(auto, using(primitives::proofs::NoKinds::no_statement_kind))]
pub fn kind_of(number: usize) -> StatementKind
    ensures { result ≡ kind_of number }
{
    match u8::try_from(number) {
        Ok(byte) => StatementKind::from(byte),
        Err(_) => StatementKind::Unknown,
    }
}

// Whether the statement opens a loop.
#[tactic(auto, unfolding(model::specs::Statements::opens_loop))]
pub fn opens_loop(kind: StatementKind) -> bool
    ensures { result ≡ opens_loop kind }
{
    match kind {
        StatementKind::For => true,
        StatementKind::Load => false,
        StatementKind::Call => false,
        StatementKind::Copy => false,
        StatementKind::Read => false,
        StatementKind::Write => false,
        StatementKind::Reduce => false,
        StatementKind::Unknown => false,
    }
}

// Whether the statement defines its loop's next variable.
#[tactic(auto, unfolding(model::specs::Statements::defines_variable))]
pub fn defines_variable(kind: StatementKind) -> bool
    ensures { result ≡ defines_variable kind }
{
    match kind {
        StatementKind::For => false,
        StatementKind::Load => true,
        StatementKind::Call => true,
        StatementKind::Copy => true,
        StatementKind::Read => false,
        StatementKind::Write => false,
        StatementKind::Reduce => false,
        StatementKind::Unknown => false,
    }
}

// How the statement accesses the element of its variable. LOAD is a read too.
#[tactic(auto, unfolding(model::specs::Statements::access_of))]
pub fn access_of(kind: StatementKind) -> Access
    ensures { result ≡ access_of kind }
{
    match kind {
        StatementKind::For => Access::Nothing,
        StatementKind::Load => Access::Reads,
        StatementKind::Call => Access::Nothing,
        StatementKind::Copy => Access::Nothing,
        StatementKind::Read => Access::Reads,
        StatementKind::Write => Access::Writes,
        StatementKind::Reduce => Access::Reduces,
        StatementKind::Unknown => Access::Nothing,
    }
}

// Whether there is an access.
#[tactic(auto, unfolding(model::specs::Statements::is_access))]
pub fn is_access(access: Access) -> bool
    ensures { result ≡ is_access access }
{
    access != Access::Nothing
}

// Whether the access is a reduction.
#[tactic(auto, unfolding(model::specs::Parallel::is_reduce))]
pub fn is_reduce(access: Access) -> bool
    ensures { result ≡ is_reduce access }
{
    access == Access::Reduces
}
