// Section 4 as a whole: its statements in one pass, then its loops.
// Numbers are narrowed by `as`: the bound is proved, and `try_from` would have a case that never comes.
ghost use Rattle.std.specs.Prelude.{◌/◌, ◌≤◌, length};
ghost use Rattle.model.specs.Layout.{Plan};
ghost use Rattle.loops.specs.Section.{StatementSources, StatementsChecked};

use crate::parallel::check_loops;
use crate::statements::statement_at;
use crate::tables::StatementTables;
use crate::variables::Variables;
use model::Refusal;
use primitives::bytes::byte_at;

// The statements, then the loops; after a pass, the tables. Each statement is entered into them before it is checked: a FOR
// works on the variable that it defines.
#[tactic(auto, using(crate::proofs::StatementLaws::pass_start))]
pub fn check_statements_and_loops(
    regions: &[u8],
    maps: &[u8],
    statements: &[u8],
) -> Result<StatementTables, Refusal>
    requires { length statements.now / 4 ≤ 64 }
    ensures { (P : Plan) → StatementSources P regions.now maps.now statements.now → StatementsChecked P result }
{
    let mut tables = StatementTables {
        operands: [0; 64],
        variable_regions: [0; 64],
        centered: [false; 64],
    };
    let mut variables = Variables {
        count: 0,
        definitions: [0; 16],
    };
    for s in 0..statements.len() / 4 {
        let statement = statement_at(statements, s);
        let entry = statement.entry(maps, s, &variables, &tables);
        tables.enter(s, entry);
        let region = byte_at(&tables.variable_regions, usize::from(entry.operand));
        statement.check(regions, maps, s, variables.count, region)?;
        variables.enter(statement.kind, s as u8);
    }
    check_loops(
        statements,
        &tables.operands,
        &tables.variable_regions,
        &tables.centered,
    )?;
    Ok(tables)
}
