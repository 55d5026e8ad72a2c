// The records of a plan's sections in the paper's order: the first refusal met is given. A section's reader is handed the
// sections that its records name (project's form).
ghost use Rattle.layout.specs.Sections.{plan_in};
ghost use Rattle.plan.specs.Records.{RecordsChecked};

use crate::assignments::check_assignments;
use crate::needs::check_needs;
use crate::tables::PlanTables;
use expressions::nodes::check_nodes;
use expressions::steps::check_steps;
use layout::maps::check_maps;
use layout::regions::check_regions;
use layout::sections::PlanSections;
use layout::supplied::check_supplied;
use loops::section::check_statements_and_loops;
use model::Refusal;

// All records; after a pass, the region of each node.
#[tactic(auto, using(primitives::proofs::Stages::stages, crate::proofs::Stages::in_stages))]
pub fn check_records(sections: &PlanSections<'_>) -> Result<[u8; 48], Refusal>
    ensures { RecordsChecked (plan_in sections.now) result }
{
    let regions = sections.regions;
    let maps = sections.maps;
    let supplied = sections.supplied;
    check_regions(regions)?;
    check_maps(regions, maps)?;
    check_supplied(regions, supplied)?;
    let statements = check_statements_and_loops(regions, maps, sections.statements)?;
    let nodes = check_nodes(regions, maps, supplied, sections.nodes)?;
    let tables = PlanTables {
        sections: *sections,
        statements: &statements,
        nodes: &nodes,
    };
    check_assignments(tables)?;
    // An array, which the reader of section 7 fills: how many places count is the number of steps.
    let mut conclusions = [0u32; 128];
    check_steps(
        maps,
        supplied,
        sections.nodes,
        sections.steps,
        &mut conclusions,
    )?;
    check_needs(tables, &conclusions)?;
    Ok(nodes.regions)
}
