// Cells of a plan, for every place.
ghost use Rattle.std.specs.Prelude.{◌≡◌, ◌<◌};
ghost use Rattle.model.specs.Layout.{plan_of, assigned};

use primitives::sections::{ASSIGNMENTS, body_byte};

// The node that is assigned to a symbol.
pub fn assigned_node(plan: &[u8], symbol: usize) -> usize
    ensures { (result ≡ assigned (plan_of plan.now) symbol) × (result < 256) }
{
    body_byte(plan, ASSIGNMENTS, symbol)
}
