// Needs: what the loops ask the steps to conclude, and the search for the steps that do. Functions over the tables, as those of
// section 6.
// Numbers are narrowed by `as`: the bound is proved, and `try_from` would have a case that never comes.
ghost use Rattle.std.specs.Prelude.{◌≡◌, ◌*◌, ◌/◌, ◌≤◌, ◌<◌, ◌==◌, position};
ghost use Rattle.model.specs.declared.Refusal.TheVariants.{UnmetNeed};
ghost use Rattle.model.specs.Tests.{◌and◌};
ghost use Rattle.model.specs.Layout.{statement_count, step_count};
ghost use Rattle.model.specs.Statements.{opens};
ghost use Rattle.model.specs.Parallel.{reduces_through_pointer};
ghost use Rattle.model.specs.Needs.{symbol, image_node};
ghost use Rattle.expressions.specs.Steps.{ConclusionKeys};
ghost use Rattle.plan.specs.Plans.{plan_at};
ghost use Rattle.plan.specs.Needs.{BoundSought, bound_at, first_need, second_need, NeedsListed, NeedsSettled, NeedsChecked};

use crate::assignments::{next_symbol, symbol_of};
use crate::tables::PlanTables;
use expressions::nodes::key_of;
use expressions::steps::{complete_key, disjoint_key, subset_key};
use loops::kinds::{access_of, is_access, opens_loop};
use loops::parallel::reduces_through_pointer;
use model::{NodeKind, Refusal, StatementKind};
use primitives::bytes::byte_at;
use primitives::lookup::entry_or;

// What the steps must conclude for a statement's symbol. Three cases, not an Option of an Option: that would not say which None
// is always met and which never.
#[derive(Clone, Copy)]
pub enum Need {
    Nothing,
    // SUB of a bound that is not listed as a node: no step concludes it.
    Unlisted,
    // The conclusion with this key.
    Conclusion(u32),
}

// Where the first of these keys that is this one stands.
fn position_of(keys: &[u32], wanted: u32) -> Option<usize>
    ensures { result ≡ position (λ key. key == wanted) keys.now }
{
    keys.iter().position(|key| *key == wanted)
}

// The image of a node under a map. The number of nodes stands for one that is not listed: the definition is total, and gives it.
fn image_node(tables: PlanTables<'_>, node: usize, map: usize) -> usize
    requires { (node < 256) × (map < 256) }
    ensures { (result ≡ image_node (plan_at tables.entry) node map) × (result ≤ 48) }
{
    let nodes = tables.node_count();
    let wanted = key_of(NodeKind::Image, node, map);
    position_of(&tables.nodes.keys[..nodes], wanted).unwrap_or(nodes)
}

// The bound of the variable that statement s defines, given the statement's node and the bound of the variable that it follows.
#[tactic(auto, unfolding(crate::specs::Needs::bound_at, model::specs::Needs::bound_by))]
fn variable_bound(tables: PlanTables<'_>, s: usize, node: usize, followed: usize) -> usize
    requires { BoundSought (plan_at tables) s node followed }
    ensures { (result ≡ bound_at (plan_at tables.entry) s (λ d. followed)) × (result < 256) }
{
    match tables.kind(s) {
        StatementKind::For => node,
        StatementKind::Load | StatementKind::Call => {
            image_node(tables, followed, tables.first_number(s))
        }
        StatementKind::Copy => followed,
        StatementKind::Read
        | StatementKind::Write
        | StatementKind::Reduce
        | StatementKind::Unknown => tables.node_count(),
    }
}

// What a statement's symbol needs: a loop COMP of its node, an access SUB of its variable's bound in its node.
#[tactic(auto, using(primitives::proofs::OpenTests::tests_open), unfolding(crate::specs::Needs::first_need, model::specs::Tests::pick))]
fn first_need(kind: StatementKind, node: usize, bound: usize, nodes: usize) -> Need
    requires { (node < 256) × (nodes ≤ 48) }
    ensures { result ≡ first_need kind node bound nodes }
{
    if opens_loop(kind) {
        return Need::Conclusion(complete_key(node));
    }
    if !is_access(access_of(kind)) {
        return Need::Nothing;
    }
    if bound < nodes {
        Need::Conclusion(subset_key(bound, node))
    } else {
        Need::Unlisted
    }
}

// What the symbol of a loop needs besides: DISJ of its node, if the loop reduces through a pointer.
#[tactic(auto, unfolding(crate::specs::Needs::second_need, model::specs::Tests::pick))]
fn second_need(reduces: bool, node: usize) -> Need
    requires { node < 256 }
    ensures { result ≡ second_need reduces node }
{
    if reduces {
        Need::Conclusion(disjoint_key(node))
    } else {
        Need::Nothing
    }
}

// Whether statement s opens a loop that reduces through a pointer.
#[tactic(auto, using(primitives::proofs::OpenTests::tests_open), unfolding(model::specs::Statements::opens))]
fn needs_disjoint(tables: PlanTables<'_>, s: usize) -> bool
    requires { s < statement_count (plan_at tables) }
    ensures { result ≡ (opens (plan_at tables.entry) s and reduces_through_pointer (plan_at tables.entry) s) }
{
    opens_loop(tables.kind(s))
        && reduces_through_pointer(
            tables.sections.statements,
            &tables.statements.operands,
            &tables.statements.centered,
            s,
        )
}

// Lists the needs of the statements in order, two of each: needs 2s and 2s + 1 are those of statement s. Arrays here and below:
// how many places count is told by the plan's statements and steps, and an ArrayVec's length would be proved to be that.
fn list_needs(tables: PlanTables<'_>, needs: &mut [Need; 128])
    ensures { NeedsListed (plan_at tables.entry) (statement_count (plan_at tables.entry)) needs.new }
{
    let nodes = tables.node_count();
    // Bytes: of a `usize` the loop's invariant would have to say that each is below 256, as images and keys ask.
    let mut bounds = [0u8; 64];
    let mut symbol = 0;
    for s in 0..tables.statement_count() {
        let node = tables.assigned(symbol);
        let operand = tables.operand(s);
        let followed = usize::from(entry_or(&bounds[..s], operand, nodes as u8));
        bounds[s] = variable_bound(tables, s, node, followed) as u8;
        let bound = byte_at(&bounds, operand);
        needs[s * 2] = first_need(tables.kind(s), node, bound, nodes);
        needs[s * 2 + 1] = second_need(needs_disjoint(tables, s), node);
        symbol = next_symbol(tables, s, symbol);
    }
}

// The refusal of need i, at its statement's symbol.
fn unmet_need(tables: PlanTables<'_>, i: usize) -> Refusal
    requires { i < statement_count (plan_at tables) * 2 }
    ensures { result ≡ UnmetNeed (symbol (plan_at tables.entry) (i / 2)) }
{
    Refusal::UnmetNeed(symbol_of(tables, i / 2))
}

// Settles the needs in order: the steps are searched for each, and the search is left at the first that concludes it.
#[tactic(auto, using(primitives::proofs::Searching::searched, primitives::proofs::OpenTests::tests_open, crate::proofs::Settling::settling))]
fn settle(
    tables: PlanTables<'_>,
    needs: &[Need; 128],
    conclusions: &[u32; 128],
) -> Result<[u8; 128], Refusal>
    ensures { NeedsSettled (plan_at tables.entry) needs.now conclusions.now result }
{
    // 0 where nothing is needed: only the places that need a step are spoken of.
    let mut concluding = [0u8; 128];
    // The project's form of this search: nested, and left by its label with the step that is found.
    'needs: for i in 0..tables.statement_count() * 2 {
        let key = match needs[i] {
            Need::Nothing => continue 'needs,
            Need::Unlisted => return Err(unmet_need(tables, i)),
            Need::Conclusion(key) => key,
        };
        let found = 'steps: {
            for t in 0..tables.step_count() {
                if conclusions[t] == key {
                    break 'steps Some(t);
                }
            }
            None
        };
        match found {
            Some(step) => concluding[i] = step as u8,
            None => return Err(unmet_need(tables, i)),
        }
    }
    Ok(concluding)
}

// The check of the needs: the first that no step concludes is refused, at its symbol. After a pass, the first step that concludes each,
// at the need's place.
#[tactic(auto, using(crate::proofs::NeedsMet::needs_checked))]
pub fn check_needs(tables: PlanTables<'_>, conclusions: &[u32; 128]) -> Result<[u8; 128], Refusal>
    ensures { ConclusionKeys (plan_at tables.entry) (step_count (plan_at tables.entry)) conclusions.now → NeedsChecked (plan_at tables.entry) result }
{
    let mut needs = [Need::Nothing; 128];
    list_needs(tables, &mut needs);
    settle(tables, &needs, conclusions)
}
