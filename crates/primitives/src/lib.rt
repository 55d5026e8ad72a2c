// What every reader of bytes stands on: bytes as numbers, entries of tables, a test that must pass, bodies of sections, cells of
// shared records.
#![tactic(auto)]

pub mod bytes;
pub mod lookup;
pub mod outcomes;
pub mod records;
pub mod sections;
