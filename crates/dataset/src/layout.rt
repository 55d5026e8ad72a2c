// What is read of a data set whose layout is right.
use crate::cells::region_size;
use primitives::records::map_source;

// The number of pieces, the bodies of the sizes, the entries and the members, and where each map's entries and each supplied
// partition's members begin in theirs: tables as long as a plan can need, since the library has no heap.
#[derive(Clone, Copy)]
pub struct DataLayout<'a> {
    pub pieces: usize,
    pub sizes: &'a [u8],
    pub entries: &'a [u8],
    pub members: &'a [u8],
    pub entry_starts: [usize; 16],
    pub member_starts: [usize; 8],
}

impl DataLayout<'_> {
    ghost use Rattle.std.specs.Prelude.{◌≡◌, ◌/◌, ◌<◌, length};
    ghost use Rattle.model.specs.Layout.{Plan};
    ghost use Rattle.model.specs.DataSets.{DataSet};
    ghost use Rattle.dataset.specs.Layout.{EntriesPlaced};
    ghost use Rattle.dataset.specs.Entries.{EntriesReady, EntrySources, EntriesOf};

    // The entries of one of the plan's maps. What it asks is in clauses: the layout holds no plan and no map's number.
    pub fn map_entries(&self, maps: &[u8], map: usize) -> &[u8]
        requires ready { EntriesReady maps.now self.now }
        requires listed { map < length maps.now / 3 }
        ensures { (P : Plan) (D : DataSet) → EntrySources P D maps.now self.now → EntriesPlaced P D self.now → EntriesOf P D map result.now }
    {
        let start = self.entry_starts[map];
        let end = start + 2 * region_size(self.sizes, map_source(maps, map));
        &self.entries[start..end]
    }
}
