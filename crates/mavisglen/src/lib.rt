// The entry points for C and Rust, which mavisglen_c exports: an answer comes as one number, and what is asked as numbers, each a
// parameter (C interface).
// By `as`: there is no `From` between `usize` and `u64`, and `try_from` would have a case that never comes.
#![tactic(auto)]

ghost use Rattle.std.specs.Prelude.{◌≡◌, ℕ};
ghost use Rattle.model.specs.Packed.{tagged, pack as packedTag, tag_by, acceptance_value, charge_value};
ghost use Rattle.model.specs.Provenance.{asking};
ghost use Rattle.model.specs.Transfers.{transferring};
ghost use Rattle.mavisglen.specs.Exported.{ExportedCheck, ExportedEvaluation, ExportedExplanation, ExportedCharge};

use model::{Acceptance, Charge, Refusal};

// Checks a plan.
pub fn mavisglen_check(plan: &[u8]) -> u64
    ensures { ExportedCheck plan.now result }
{
    pack_answer(plan::check(plan))
}

// Evaluates a plan over a data set into the lent words.
#[tactic(auto, using(crate::proofs::Exported::exported_evaluation))]
pub fn mavisglen_evaluate(plan: &[u8], data: &[u8], words: &mut [u64]) -> u64
    ensures { ExportedEvaluation plan.now «data».now words.old words.new result }
{
    pack_answer(evaluate::evaluate(plan, data, words))
}

// Explains why a piece of a node holds an element, by a chain of pairs in two lent slices.
#[tactic(auto, using(crate::proofs::Exported::exported_explanation))]
pub fn mavisglen_explain(
    plan: &[u8],
    data: &[u8],
    node: usize,
    piece: usize,
    element: usize,
    nodes: &mut [u16],
    elements: &mut [u16],
) -> u64
    ensures { ExportedExplanation plan.now «data».now (asking node piece element) nodes.old nodes.new elements.old elements.new result }
{
    pack_answer(provenance::explain(plan, data, node, piece, element, nodes, elements))
}

// Charges for the elements of the accessed node's pieces that the owned node's lack.
pub fn mavisglen_charge(plan: &[u8], data: &[u8], accessed: usize, owned: usize, price: u64) -> u64
    ensures { ExportedCharge plan.now «data».now (transferring accessed owned price) result }
{
    pack_answer(transfer::charge(plan, data, accessed, owned, price))
}

// The value that stands for what is answered, in the bits above the number 0.
trait Value {
    ghost value_of: { Self → ℕ };

    fn value(self) -> usize
        ensures { result ≡ value_of self };
}

// The counts in 8 bits each.
impl Value for Acceptance {
    ghost value_of = { acceptance_value };

    #[tactic(auto, unfolding(model::specs::Packed::acceptance_value))]
    fn value(self) -> usize {
        self.symbols % 256 + (self.nodes % 256 << 8) + (self.steps % 256 << 16)
    }
}

// The length of what was written.
impl Value for usize {
    ghost value_of = { λ length. length };

    fn value(self) -> usize {
        self
    }
}

// The count in 16 bits, the cents in 24 and the remainder in 16.
impl Value for Charge {
    ghost value_of = { charge_value };

    #[tactic(auto, unfolding(model::specs::Packed::charge_value))]
    fn value(self) -> usize {
        self.count % 65_536 + (self.cents % 16_777_216 << 16) + (self.remainder % 65_536 << 40)
    }
}

// An answer: number 0 and the value, or the refusal's number and its place.
#[tactic(auto, unfolding(model::specs::Packed::tag_by))]
fn pack_answer<T: Value>(answer: Result<T, Refusal>) -> u64
    ensures { result ≡ packedTag (tag_by T.value_of answer) }
{
    match answer {
        Ok(answered) => pack(0, answered.value()),
        Err(refusal) => pack(refusal.number(), refusal.place()),
    }
}

// A number in the low 8 bits, and the value that goes with it above them.
#[tactic(auto, unfolding(model::specs::Packed::pack))]
fn pack(number: usize, value: usize) -> u64
    ensures { result ≡ packedTag (tagged number value) }
{
    (number % 256 + (value << 8)) as u64
}
