// The frame of a plan: its edition, its seven sections, and nothing after the last.
ghost use Rattle.layout.specs.Sections.{SectionsRead};

use crate::reader::SectionReader;
use crate::sections::PlanSections;
use model::Refusal;

// The sections of a plan, or the first fault met in its layout.
pub fn read_sections(plan: &[u8]) -> Result<PlanSections<'_>, Refusal>
    ensures { SectionsRead plan.now result }
{
    let mut reader = SectionReader::new(plan)?;
    let regions = reader.next_section()?;
    let maps = reader.next_section()?;
    let supplied = reader.next_section()?;
    let statements = reader.next_section()?;
    let nodes = reader.next_section()?;
    let assignments = reader.next_section()?;
    let steps = reader.next_section()?;
    reader.finish()?;
    Ok(PlanSections {
        regions,
        maps,
        supplied,
        statements,
        nodes,
        assignments,
        steps,
    })
}
