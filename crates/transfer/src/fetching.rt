// The elements that are fetched, counted in the words of the two nodes. `(inputs, transfer)` are two parameters, as in bill.rt.
ghost use Rattle.std.specs.Prelude.{◌≡◌, ◌≤◌, length};
ghost use Rattle.model.specs.Transfers.{transfer_count};
ghost use Rattle.model.specs.Fetches.{BothExist};
ghost use Rattle.evaluate.specs.Inputs.{plan_given, data_given};
ghost use Rattle.transfer.specs.Fetching.{RoomReady};

use bitsets::counts::lacking_pieces;
use bitsets::words::one_bit;
use evaluate::inputs::Inputs;
use evaluate::words::fill_wanted;
use model::Transfer;

// Counts by way of words that have room for the first nodes, the two among them.
fn count_in(inputs: &Inputs, transfer: Transfer, nodes: usize, words: &mut [u64]) -> usize
    requires { RoomReady inputs.now transfer nodes (length words.old) }
    ensures { (result ≡ transfer_count (plan_given inputs.now) (data_given inputs.now) transfer) × (result ≤ 8192) }
{
    let wanted = one_bit(transfer.accessed) | one_bit(transfer.owned);
    fill_wanted(inputs, nodes, wanted, words);
    let pieces = inputs.layout.pieces;
    lacking_pieces(
        words,
        transfer.accessed * pieces * 8,
        transfer.owned * pieces * 8,
        pieces,
    )
}

// Counts by way of so many words of its own.
fn count_with<const WORDS: usize>(inputs: &Inputs, transfer: Transfer, nodes: usize) -> usize
    requires { RoomReady inputs.now transfer nodes WORDS × (WORDS ≤ 6144) }
    ensures { (result ≡ transfer_count (plan_given inputs.now) (data_given inputs.now) transfer) × (result ≤ 8192) }
{
    let mut words = [0u64; WORDS];
    count_in(inputs, transfer, nodes, &mut words)
}

// Counts the fetched elements. Clearing words for 48 nodes is felt in a small plan's charge, so few are taken where few are
// enough.
pub fn count_fetched(inputs: &Inputs, transfer: Transfer) -> usize
    requires { BothExist (plan_given inputs.now) transfer }
    ensures { (result ≡ transfer_count (plan_given inputs.now) (data_given inputs.now) transfer) × (result ≤ 8192) }
{
    let nodes = transfer.accessed.max(transfer.owned) + 1;
    match nodes * inputs.layout.pieces * 8 {
        0..=64 => count_with::<64>(inputs, transfer, nodes),
        65..=512 => count_with::<512>(inputs, transfer, nodes),
        513..=2048 => count_with::<2048>(inputs, transfer, nodes),
        _ => count_with::<6144>(inputs, transfer, nodes),
    }
}
