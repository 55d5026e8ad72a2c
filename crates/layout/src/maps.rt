// Section 2, maps: "source region, target region, 0 partial or 1 total".
ghost use Rattle.std.specs.Prelude.{◌≡◌, ◌<◌, ◌/◌, length};
ghost use Rattle.model.specs.Layout.{Plan};
ghost use Rattle.model.specs.Verdict.{maps_check};
ghost use Rattle.model.specs.Declarations.{map_check};
ghost use Rattle.layout.specs.Declarations.{MapDeclarations};

use model::Refusal;
use primitives::outcomes::require;
use primitives::records::{map_source, map_target, map_totality};

// Whether a map leads from a region to a region and is partial or total. Its record is there: the places are made of its number.
#[tactic(auto, using(primitives::proofs::OpenTests::tests_open), unfolding(model::specs::Declarations::map_check))]
fn check_map(regions: &[u8], maps: &[u8], map: usize) -> Result<(), Refusal>
    requires { map < length maps.now / 3 }
    ensures { (P : Plan) → MapDeclarations P regions.now maps.now → result ≡ map_check P map }
{
    let source = map_source(maps, map);
    let target = map_target(maps, map);
    let totality = map_totality(maps, map);
    let count = regions.len();
    require(
        (source < count) & ((target < count) & (totality <= 1)),
        Refusal::InvalidRecord(2 * 256 + map),
    )
}

// The records of section 2, in order. A loop of its own, as each section has: one over a closure would have to say in its
// clauses what is checked.
#[tactic(auto, using(primitives::proofs::Scanning::scanned))]
pub fn check_maps(regions: &[u8], maps: &[u8]) -> Result<(), Refusal>
    ensures { (P : Plan) → MapDeclarations P regions.now maps.now → result ≡ maps_check P }
{
    for map in 0..maps.len() / 3 {
        check_map(regions, maps, map)?;
    }
    Ok(())
}
