// Loops: section 4's statements, and which loops can run in parallel.
#![tactic(auto)]

pub mod kinds;
pub mod lookup;
pub mod parallel;
pub mod section;
pub mod statements;
pub mod tables;
pub mod variables;
