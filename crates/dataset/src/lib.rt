// Reads data sets against the sections of an accepted plan, in stages: the layout, the maps' entries, the supplied partitions.
#![tactic(auto)]

pub mod cells;
pub mod entries;
pub mod layout;
pub mod reading;
pub mod supplied;
