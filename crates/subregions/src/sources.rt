// What the nodes' sets are read from.
ghost use Rattle.std.specs.Prelude.{◌≡◌, ◌+◌, ◌<◌, get_or, drop};
ghost use Rattle.model.specs.Bytes.{Bytes};
ghost use Rattle.model.specs.Layout.{Plan};
ghost use Rattle.model.specs.Nodes.{node_region};
ghost use Rattle.model.specs.DataSets.{data_of, size};

use primitives::bytes::{byte_at, u16_at};
use primitives::lookup::entry_or;

// The part of a slice from a place on; empty past its end.
pub(crate) fn part_from<T>(s: &[T], at: usize) -> &[T]
    ensures { result.now ≡ drop at s.now }
{
    s.get(at..).unwrap_or(&[])
}

// Of a plan the nodes and their regions. Of a data set the regions' sizes, the maps' entries and the supplied partitions'
// members, with the places where those of each map and of each partition begin. Slices side by side, as plan and data set
// lend them: a data set's layout in their place would ask callers for tables of a fixed length.
#[derive(Clone, Copy, Debug)]
pub struct Sources<'a> {
    pub nodes: &'a [u8],
    pub node_regions: &'a [u8],
    pub sizes: &'a [u8],
    pub entries: &'a [u8],
    pub members: &'a [u8],
    pub entry_starts: &'a [usize],
    pub member_starts: &'a [usize],
}

impl Sources<'_> {
    ghost use Rattle.std.specs.Prelude.{◌≤◌};
    ghost use Rattle.subregions.specs.Fill.{SizeSources, NodeSizes};

    // The sizes of the first `count` nodes' regions.
    pub fn node_sizes(&self, count: usize) -> [usize; 48]
        requires { count ≤ 48 }
        ensures { (P : Plan) (d : Bytes) → SizeSources P d self.now count → NodeSizes P (data_of d) result count }
    {
        let mut table = [0; 48];
        for j in 0..count {
            table[j] = self.node_size(j);
        }
        table
    }

    // The size of node j's region.
    #[tactic(auto, using(crate::proofs::Sizes::size_read))]
    pub fn node_size(&self, j: usize) -> usize
        ensures size { (P : Plan) (d : Bytes) → SizeSources P d self.now (j + 1) → result ≡ size (data_of d) (node_region P j) }
        ensures near { result < 65536 }
    {
        u16_at(self.sizes, 2 * byte_at(self.node_regions, j))
    }

    // The entries of a map, and those behind them. A line for entries and one for members: their names say more than a section
    // and its starts as parameters.
    pub fn map_entries(&self, map: usize) -> &[u8]
        ensures { result.now ≡ drop (get_or self.now.entry_starts.now map 0) self.now.entries.now }
    {
        part_from(self.entries, entry_or(self.entry_starts, map, 0))
    }

    // The members of a supplied partition, and those behind them.
    pub fn partition_members(&self, partition: usize) -> &[u8]
        ensures { result.now ≡ drop (get_or self.now.member_starts.now partition 0) self.now.members.now }
    {
        part_from(self.members, entry_or(self.member_starts, partition, 0))
    }
}
