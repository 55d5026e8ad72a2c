// Cells of a data set, for every place.
ghost use Rattle.std.specs.Prelude.{◌≡◌, ◌*◌, ◌^◌, ◌<◌};
ghost use Rattle.model.specs.DataSets.{DataSet, data_of, pieces, size};

use primitives::bytes::{byte_at, u16_at};

// The number of pieces: the byte behind the edition and the first section's length, where that is not 0.
#[tactic(auto, using(crate::proofs::Framing::no_pieces, crate::proofs::Framing::pieces_read))]
pub fn piece_count(data: &[u8]) -> usize
    ensures { (result ≡ pieces (data_of «data».now)) × (result < 256) }
{
    if u16_at(data, 1) == 0 {
        return 0;
    }
    byte_at(data, 3)
}

// The number of elements of a region, of any whose cell has a place that 64 bits can say.
#[tactic(auto, unfolding(model::specs::DataSets::size))]
pub fn region_size(sizes: &[u8], region: usize) -> usize
    requires { 2 * region < 2 ^ 64 }
    ensures { ((D : DataSet) → D.sizes ≡ sizes.now → result ≡ size D region) × (result < 65536) }
{
    u16_at(sizes, 2 * region)
}
