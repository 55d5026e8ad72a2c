// Expressions: section 5's nodes, and section 7's lemma steps about them.
#![tactic(auto)]

pub mod lemmas;
pub mod licences;
pub mod nodes;
pub mod records;
pub mod steps;
