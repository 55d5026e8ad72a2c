// The functions for C and Rust: each is the library's, with its promise.
// A function beside each of mavisglen: the exported names (C interface).
#![tactic(auto)]

ghost use Rattle.model.specs.Provenance.{asking};
ghost use Rattle.model.specs.Transfers.{transferring};
ghost use Rattle.mavisglen.specs.Exported.{ExportedCheck, ExportedEvaluation, ExportedExplanation, ExportedCharge};

// Checks a plan.
#[unsafe(no_mangle)]
pub extern "C" fn mavisglen_check(plan: &[u8]) -> u64
    ensures { ExportedCheck plan.now result }
{
    mavisglen::mavisglen_check(plan)
}

// Evaluates a plan over a data set into the lent words.
#[unsafe(no_mangle)]
pub extern "C" fn mavisglen_evaluate(plan: &[u8], data: &[u8], words: &mut [u64]) -> u64
    ensures { ExportedEvaluation plan.now «data».now words.old words.new result }
{
    mavisglen::mavisglen_evaluate(plan, data, words)
}

// Explains why a piece of a node holds an element, by a chain of pairs in two lent slices.
#[unsafe(no_mangle)]
pub extern "C" fn mavisglen_explain(
    plan: &[u8],
    data: &[u8],
    node: usize,
    piece: usize,
    element: usize,
    nodes: &mut [u16],
    elements: &mut [u16],
) -> u64
    ensures { ExportedExplanation plan.now «data».now (asking node piece element) nodes.old nodes.new elements.old elements.new result }
{
    mavisglen::mavisglen_explain(plan, data, node, piece, element, nodes, elements)
}

// Charges for the elements of the accessed node's pieces that the owned node's lack.
#[unsafe(no_mangle)]
pub extern "C" fn mavisglen_charge(
    plan: &[u8],
    data: &[u8],
    accessed: usize,
    owned: usize,
    price: u64,
) -> u64
    ensures { ExportedCharge plan.now «data».now (transferring accessed owned price) result }
{
    mavisglen::mavisglen_charge(plan, data, accessed, owned, price)
}
