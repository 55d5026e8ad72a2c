// Reads plan and data set, check by check in the paper's order.
ghost use Rattle.evaluate.specs.Inputs.{InputsRead};

use crate::inputs::Inputs;
use dataset::entries::check_entries;
use dataset::reading::read_layout;
use dataset::supplied::check_supplied;
use model::Refusal;

// The inputs, or the first refusal met.
pub fn read_inputs<'a>(plan: &'a [u8], data: &'a [u8]) -> Result<Inputs<'a>, Refusal>
    ensures { InputsRead plan.now «data».now result }
{
    let reading = plan::read(plan)?;
    let sections = reading.sections;
    let layout = read_layout(sections.regions, sections.maps, sections.supplied, data)?;
    check_entries(sections.maps, &layout)?;
    check_supplied(sections.supplied, &layout)?;
    Ok(Inputs {
        reading,
        layout,
        data,
    })
}
