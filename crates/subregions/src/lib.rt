// Fills the words of a plan's nodes with their subregions.
#![tactic(auto)]

pub mod fill;
pub mod needed;
mod operators;
mod pieces;
pub mod sources;

// Which sets are filled: of the first `nodes` nodes, where they are needed (node j's bit j), those of `count` pieces from
// piece `first` on, out of `pieces`.
#[derive(Clone, Copy, Debug, PartialEq, Eq)]
pub struct Span {
    pub nodes: usize,
    pub needed: u64,
    pub pieces: usize,
    pub first: usize,
    pub count: usize,
}
