// Section 1, regions: "number of fields, 1 to 8".
ghost use Rattle.std.specs.Prelude.{◌≡◌, ◌<◌, length};
ghost use Rattle.model.specs.Layout.{Plan};
ghost use Rattle.model.specs.Verdict.{regions_check};
ghost use Rattle.model.specs.Declarations.{region_check};

use model::Refusal;
use primitives::bytes::byte_at;
use primitives::outcomes::require;

// Whether a region has 1 to 8 fields. Its record is there: the refusal's place is made of its number.
#[tactic(auto, using(primitives::proofs::OpenTests::tests_open), unfolding(model::specs::Declarations::region_check))]
fn check_region(regions: &[u8], region: usize) -> Result<(), Refusal>
    requires { region < length regions.now }
    ensures { (P : Plan) → P.regions ≡ regions.now → result ≡ region_check P region }
{
    let fields = byte_at(regions, region);
    require(
        (1 <= fields) & (fields <= 8),
        Refusal::InvalidRecord(1 * 256 + region),
    )
}

// The records of section 1, in order. A loop of its own, as each section has: one over a closure would have to say in its
// clauses what is checked.
#[tactic(auto, using(primitives::proofs::Scanning::scanned))]
pub fn check_regions(regions: &[u8]) -> Result<(), Refusal>
    ensures { (P : Plan) → P.regions ≡ regions.now → result ≡ regions_check P }
{
    for region in 0..regions.len() {
        check_region(regions, region)?;
    }
    Ok(())
}
