// A transfer over accepted inputs: whether there is a charge for it, and the price of what is fetched.
// `(inputs, transfer)` are two parameters: every entry point has inputs, and a struct of both, for this crate alone, would put
// `self.now` before each in every clause.
ghost use Rattle.std.specs.Prelude.{◌≡◌, ◌≤◌};
ghost use Rattle.model.specs.Transfers.{transfer_check, priced};
ghost use Rattle.evaluate.specs.Inputs.{plan_given};

use evaluate::inputs::Inputs;
use model::{Charge, Refusal, Transfer};
use primitives::outcomes::require;

// Whether both nodes exist, are of one region, and the price is not too high, in this order.
#[tactic(auto, using(crate::proofs::Bills::no_accessed, crate::proofs::Bills::no_owned, crate::proofs::Bills::past_nodes, primitives::proofs::Stages::stages, primitives::proofs::OpenTests::tests_open))]
pub fn check_transfer(inputs: &Inputs, transfer: Transfer) -> Result<(), Refusal>
    ensures { result ≡ transfer_check (plan_given inputs.now) transfer }
{
    let reading = &inputs.reading;
    let nodes = reading.node_count();
    if transfer.accessed >= nodes || transfer.owned >= nodes {
        return Err(Refusal::InvalidCharge(1));
    }
    require(
        reading.node_region(transfer.accessed) == reading.node_region(transfer.owned),
        Refusal::InvalidCharge(2),
    )?;
    require(transfer.price <= 1_000_000, Refusal::InvalidCharge(3))
}

// So many elements at a price for a thousand: whole cents, and the exact remainder.
#[tactic(auto, unfolding(model::specs::Transfers::priced))]
pub fn price_elements(count: usize, price: usize) -> Charge
    requires { (count ≤ 8192) × (price ≤ 1000000) }
    ensures { result ≡ priced count price }
{
    let product = count * price;
    Charge {
        count,
        cents: product / 1000,
        remainder: product % 1000,
    }
}
