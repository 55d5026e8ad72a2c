// Reads and checks partition plans.
#![tactic(auto)]

ghost use Rattle.model.specs.Promises.{CheckPromise};
ghost use Rattle.plan.specs.Reading.{ReadPromise};

use crate::records::check_records;
use layout::frame::read_sections;
use model::{Acceptance, Refusal};

mod assignments;
mod needs;
mod reading;
mod records;
mod tables;

pub use reading::Reading;

// Bytes of a statement, of a node and of a step.
const STATEMENT_BYTES: usize = 4;

const NODE_BYTES: usize = 4;

const STEP_BYTES: usize = 5;

// Reads a plan: its layout, then its records.
#[tactic(auto, using(crate::proofs::Verdict::reading))]
pub fn read(plan: &[u8]) -> Result<Reading<'_>, Refusal>
    ensures { ReadPromise plan.now result }
{
    let sections = read_sections(plan)?;
    let node_regions = check_records(&sections)?;
    Ok(Reading {
        sections,
        node_regions,
    })
}

// Checks a plan.
pub fn check(plan: &[u8]) -> Result<Acceptance, Refusal>
    ensures { CheckPromise plan.now result }
{
    let reading = read(plan)?;
    Ok(reading.acceptance())
}
