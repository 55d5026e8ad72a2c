// Charges for what the tasks of a plan must fetch.
// By `as`: there is no `From` between `usize` and `u64`, and `try_from` would have a case that never comes.
#![tactic(auto)]

ghost use Rattle.model.specs.Transfers.{transferring};
ghost use Rattle.model.specs.Promises.{ChargePromise};

use crate::bill::{check_transfer, price_elements};
use crate::fetching::count_fetched;
use evaluate::reading::read_inputs;
use model::{Charge, Refusal, Transfer};

mod bill;
mod fetching;

// Counts the elements of the accessed node's pieces that the owned node's lack, and prices them, in cents for a thousand. The
// numbers come one by one, as the exported function is handed them (C interface).
#[tactic(auto, using(crate::proofs::Bills::both_exist, crate::proofs::Bills::price_few))]
pub fn charge(
    plan: &[u8],
    data: &[u8],
    accessed: usize,
    owned: usize,
    price: u64,
) -> Result<Charge, Refusal>
    ensures { ChargePromise plan.now «data».now (transferring accessed owned price) result }
{
    let inputs = read_inputs(plan, data)?;
    let transfer = Transfer {
        accessed,
        owned,
        price: price as usize,
    };
    check_transfer(&inputs, transfer)?;
    let count = count_fetched(&inputs, transfer);
    Ok(price_elements(count, transfer.price))
}
