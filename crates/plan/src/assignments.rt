// Symbols, and section 6: a node for each, of its region.
// Functions over the tables, not methods: a method of the tables is what sections 6 and 7 both read off them.
ghost use Rattle.std.specs.Prelude.{◌≡◌, ◌+◌, ◌<◌, ◌≤◌};
ghost use Rattle.model.specs.Layout.{statement_count};
ghost use Rattle.model.specs.Needs as Needs;
ghost use Rattle.model.specs.Needs.{has_symbol, symbol_region, assignment_count_check, assignment_check};
ghost use Rattle.model.specs.Verdict.{assignments_check};
ghost use Rattle.plan.specs.Plans.{plan_at};
ghost use Rattle.plan.specs.Assignments.{SymbolAt, counted_assignments_check};

use crate::tables::PlanTables;
use loops::kinds::{access_of, is_access, opens_loop};
use model::Refusal;
use primitives::outcomes::require;

// Whether statement s has a symbol: a FOR, or an access.
#[tactic(auto, using(primitives::proofs::OpenTests::tests_open), unfolding(model::specs::Needs::has_symbol, model::specs::Statements::opens, model::specs::Statements::accesses))]
fn has_symbol(tables: PlanTables<'_>, s: usize) -> bool
    requires { s < statement_count (plan_at tables) }
    ensures { result ≡ has_symbol (plan_at tables.entry) s }
{
    let kind = tables.kind(s);
    opens_loop(kind) | is_access(access_of(kind))
}

// The number of the next symbol after statement s, given that of the next before. A pass over the statements carries the number
// from turn to turn.
#[tactic(auto, using(crate::proofs::Symbols::symbols_next))]
pub fn next_symbol(tables: PlanTables<'_>, s: usize, symbol: usize) -> usize
    requires { SymbolAt (plan_at tables) symbol s }
    ensures { (result ≡ Needs.symbol (plan_at tables.entry) (s + 1)) × (result ≤ s + 1) }
{
    if has_symbol(tables, s) {
        symbol + 1
    } else {
        symbol
    }
}

// How many symbols stand before statement s, and so the number of its own. By the step of the passes: by `filter` and `count` it
// would need a law of some fifty lines about the library's iterators.
#[tactic(auto, using(crate::proofs::Symbols::symbols_next))]
pub fn symbol_of(tables: PlanTables<'_>, s: usize) -> usize
    requires { s ≤ statement_count (plan_at tables) }
    ensures { result ≡ Needs.symbol (plan_at tables.entry) s }
{
    let mut symbol = 0;
    for t in 0..s {
        symbol = next_symbol(tables, t, symbol);
    }
    symbol
}

// The region of the symbol of statement s: the loop's, or that of the access's variable.
#[tactic(auto, unfolding(model::specs::Needs::symbol_region, model::specs::Statements::opens, model::specs::Tests::pick))]
fn symbol_region(tables: PlanTables<'_>, s: usize) -> usize
    requires { s < statement_count (plan_at tables) }
    ensures { result ≡ symbol_region (plan_at tables.entry) s }
{
    if opens_loop(tables.kind(s)) {
        tables.first_number(s)
    } else {
        tables.operand_region(s)
    }
}

// The check of the node that is assigned to the symbol of statement s, if it has one.
#[tactic(auto, using(primitives::proofs::Stages::stages, primitives::proofs::OpenTests::tests_open), unfolding(model::specs::Needs::assignment_check))]
fn check_assignment(tables: PlanTables<'_>, symbol: usize, s: usize) -> Result<(), Refusal>
    requires { SymbolAt (plan_at tables) symbol s }
    ensures { result ≡ assignment_check (plan_at tables.entry) s }
{
    if !has_symbol(tables, s) {
        return Ok(());
    }
    let node = tables.assigned(symbol);
    let place = 6 * 256 + symbol;
    if node >= tables.node_count() {
        return Err(Refusal::InvalidRecord(place));
    }
    require(
        tables.node_region(node) == symbol_region(tables, s),
        Refusal::RegionMismatch(place),
    )
}

// The checks of the nodes that are assigned, symbol by symbol.
#[tactic(auto, using(primitives::proofs::Scanning::scanned, crate::proofs::Symbols::symbol_first))]
fn check_assigned_nodes(tables: PlanTables<'_>) -> Result<(), Refusal>
    ensures { result ≡ assignments_check (plan_at tables.entry) }
{
    let mut symbol = 0;
    for s in 0..tables.statement_count() {
        check_assignment(tables, symbol, s)?;
        symbol = next_symbol(tables, s, symbol);
    }
    Ok(())
}

// Whether there is one assignment for each symbol.
#[tactic(auto, using(primitives::proofs::OpenTests::tests_open), unfolding(model::specs::Needs::assignment_count_check))]
fn check_assignment_count(tables: PlanTables<'_>) -> Result<(), Refusal>
    ensures { result ≡ assignment_count_check (plan_at tables.entry) }
{
    let symbols = symbol_of(tables, tables.statement_count());
    require(
        tables.sections.assignments.len() == symbols,
        Refusal::AssignmentCount(symbols),
    )
}

// Section 6: one assignment for each symbol, then the node of each.
#[tactic(auto, using(primitives::proofs::Stages::stages))]
pub fn check_assignments(tables: PlanTables<'_>) -> Result<(), Refusal>
    ensures { result ≡ counted_assignments_check (plan_at tables.entry) }
{
    check_assignment_count(tables)?;
    check_assigned_nodes(tables)
}
