// The layout of plans: the bodies of the seven sections, the checks of the sections that declare, and cells of a plan.
// A section's check is handed the bodies that it reads, as slices (project's form).
#![tactic(auto)]

pub mod cells;
pub mod frame;
pub mod maps;
mod reader;
pub mod regions;
pub mod sections;
mod shapes;
pub mod supplied;
