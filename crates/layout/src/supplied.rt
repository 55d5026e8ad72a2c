// Section 3, supplied partitions: "region, flags: 1 disjoint, 2 complete, 3 both, 0 neither".
ghost use Rattle.std.specs.Prelude.{◌≡◌, ◌<◌, ◌/◌, length};
ghost use Rattle.model.specs.Layout.{Plan};
ghost use Rattle.model.specs.Verdict.{partitions_check};
ghost use Rattle.model.specs.Declarations.{supplied_check};
ghost use Rattle.layout.specs.Declarations.{SuppliedDeclarations};

use model::Refusal;
use primitives::outcomes::require;
use primitives::records::{supplied_flags, supplied_region};

// Whether a supplied partition is of a region and its flags are known. Its record is there: the places are made of its number.
#[tactic(auto, using(primitives::proofs::OpenTests::tests_open), unfolding(model::specs::Declarations::supplied_check))]
fn check_partition(regions: &[u8], supplied: &[u8], partition: usize) -> Result<(), Refusal>
    requires { partition < length supplied.now / 2 }
    ensures { (P : Plan) → SuppliedDeclarations P regions.now supplied.now → result ≡ supplied_check P partition }
{
    let region = supplied_region(supplied, partition);
    let flags = supplied_flags(supplied, partition);
    require(
        (region < regions.len()) & (flags <= 3),
        Refusal::InvalidRecord(3 * 256 + partition),
    )
}

// The records of section 3, in order. A loop of its own, as each section has: one over a closure would have to say in its
// clauses what is checked.
#[tactic(auto, using(primitives::proofs::Scanning::scanned))]
pub fn check_supplied(regions: &[u8], supplied: &[u8]) -> Result<(), Refusal>
    ensures { (P : Plan) → SuppliedDeclarations P regions.now supplied.now → result ≡ partitions_check P }
{
    for partition in 0..supplied.len() / 2 {
        check_partition(regions, supplied, partition)?;
    }
    Ok(())
}
