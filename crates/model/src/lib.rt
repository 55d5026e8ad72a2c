// The types that the definitions in specs/ share with the code of the other crates.
#![tactic(auto)]

mod kinds;
mod reports;

// Why a plan or a data set is refused, and at which place. Behind each: number and word of the format paper. The places of
// the last two are numbers, as the table of refusals and the definitions have them.
#[derive(Clone, Copy, Debug, PartialEq, Eq)]
pub enum Refusal {
    Truncated(usize), // 1 Short: the section, 0 for no bytes
    UnknownEdition, // 2 Edition: place 0
    TrailingBytes(usize), // 3 Long: the offset
    InvalidLength(usize), // 4 Measure: the section
    InvalidRecord(usize), // 5 Stray: section * 256 + record
    RegionMismatch(usize), // 6 Mismatch: section * 256 + record
    DuplicateNode(usize), // 7 Twin: the record
    NotParallelizable(usize), // 8 Tangled: the loop's first statement
    AssignmentCount(usize), // 9 Uneven: the number of symbols
    UnlicensedStep(usize), // 10 Unlicensed: the step
    UnmetNeed(usize), // 11 Unmet: the symbol
    InvalidData, // 12 Misframed: place 0
    InvalidEntry(usize), // 13 Dangling: map * 512 + element
    InvalidPartition(usize), // 14 Untrue: the supplied partition
    OutputTooSmall(usize), // 15 Narrow: the length needed
    NotFound(usize), // 16 Absent: 1 the node, 2 the piece, 3 the element does not exist, 4 the piece lacks the element
    InvalidCharge(usize), // 17 Unpriced: 1 a node does not exist, 2 the two differ in region, 3 the price is too high
}

// What an acceptance carries: "the numbers of symbols, nodes and steps".
#[derive(Clone, Copy, Debug, PartialEq, Eq)]
pub struct Acceptance {
    pub symbols: usize,
    pub nodes: usize,
    pub steps: usize,
}

// What charging says: how many elements are fetched, and their price in whole cents and thousandths of a cent.
#[derive(Clone, Copy, Debug, PartialEq, Eq)]
pub struct Charge {
    pub count: usize,
    pub cents: usize,
    pub remainder: usize,
}

// What an answer tells: number and place of a refusal, 0 and 0 on acceptance; the counts of an acceptance, 0 on refusal.
// A struct of numbers for each kind of answer, as the definitions have them: number 0 is an acceptance's.
#[derive(Clone, Copy, Debug, PartialEq, Eq)]
pub struct Report {
    pub number: usize,
    pub place: usize,
    pub symbols: usize,
    pub nodes: usize,
    pub steps: usize,
}

// What such an answer tells: number and place of a refusal, 0 and 0 where a list was written; its length, 0 on refusal.
#[derive(Clone, Copy, Debug, PartialEq, Eq)]
pub struct WrittenReport {
    pub number: usize,
    pub place: usize,
    pub length: usize,
}

// What a charge tells: number and place of a refusal, 0 and 0 where it was made; its three numbers, 0 on refusal.
#[derive(Clone, Copy, Debug, PartialEq, Eq)]
pub struct ChargeReport {
    pub number: usize,
    pub place: usize,
    pub count: usize,
    pub cents: usize,
    pub remainder: usize,
}

// "Given node, piece and element": why does this piece of this node hold this element?
#[derive(Clone, Copy, Debug, PartialEq, Eq)]
pub struct Question {
    pub node: usize,
    pub piece: usize,
    pub element: usize,
}

// A pair of the chain that answers it: the node's piece holds the element.
#[derive(Clone, Copy, Debug, PartialEq, Eq, Default)]
pub struct Pair {
    pub node: usize,
    pub element: usize,
}

// What is to be charged: "a node for what is accessed, a node for what is owned and a price in cents per thousand elements".
#[derive(Clone, Copy, Debug, PartialEq, Eq)]
pub struct Transfer {
    pub accessed: usize,
    pub owned: usize,
    pub price: usize,
}

// The kinds of a loop's statements, in the order of their bytes. The last is a kind of its own and no missing one: the
// definitions have a case for it, as the other enums here have for theirs.
#[derive(Clone, Copy, Debug, PartialEq, Eq)]
pub enum StatementKind {
    For,
    Load,
    Call,
    Copy,
    Read,
    Write,
    Reduce,
    Unknown,
}

// The kinds of section 5's nodes, in the order of their bytes.
#[derive(Clone, Copy, Debug, PartialEq, Eq)]
pub enum NodeKind {
    Supplied,
    Equal,
    Union,
    Intersection,
    Difference,
    Image,
    Preimage,
    Unknown,
}

// What a statement does to the element that it touches.
#[derive(Clone, Copy, Debug, PartialEq, Eq)]
pub enum Access {
    Nothing,
    Reads,
    Writes,
    Reduces,
}

// What a lemma step shows: SUB(x, y), DISJ(x) or COMP(x).
#[derive(Clone, Copy, Debug, PartialEq, Eq)]
pub enum Conclusion {
    Subset,
    Disjoint,
    Complete,
}

// A row of the lemma table: the form of the conclusion, and which of a step's numbers are used.
#[derive(Clone, Copy, Debug, PartialEq, Eq)]
pub struct Lemma {
    pub conclusion: Conclusion,
    pub x: bool,
    pub y: bool,
    pub p: bool,
    pub q: bool,
}
