// A check of records as a result.
ghost use Rattle.std.specs.Prelude.{◌≡◌};
ghost use Rattle.model.specs.Outcomes.{require};

use model::Refusal;

// A test that must pass.
#[tactic(auto, unfolding(model::specs::Outcomes::require))]
pub fn require(test: bool, refusal: Refusal) -> Result<(), Refusal>
    ensures { result ≡ require test refusal }
{
    if test { Ok(()) } else { Err(refusal) }
}
