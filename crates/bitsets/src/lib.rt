// Sets of elements in words of 64 bits.
#![tactic(auto)]

pub mod counts;
pub mod words;
