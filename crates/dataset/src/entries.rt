// The entries of the maps: whether each leads to an element.
// Numbers are narrowed by `as`: the bound is proved, and `try_from` would have a case that never comes.
ghost use Rattle.std.specs.Prelude.{◌≡◌, ◌*◌, ◌/◌, ◌≤◌, ◌<◌, length};
ghost use Rattle.model.specs.Layout.{Plan};
ghost use Rattle.model.specs.DataSets.{DataSet, entries_check};
ghost use Rattle.dataset.specs.Layout.{EntriesPlaced};
ghost use Rattle.dataset.specs.Entries.{entry_fitting, entries_fitting, entries_from, EntriesReady, EntrySources, all_entries};

use crate::cells::region_size;
use crate::layout::DataLayout;
use bitsets::words::u16_inside;
use model::Refusal;
use primitives::records::{map_target, map_totality};

// The entry that leads to no element, as the format has it.
const NONE: u16 = 65535;

// The entries of one map, two bytes each, all of which lead below the limit, or are none where the map is partial.
#[derive(Clone, Copy)]
struct MapEntries<'a> {
    bytes: &'a [u8],
    limit: u16,
    is_partial: bool,
}

impl MapEntries<'_> {
    // Whether an entry leads to an element below the limit, or is none in a partial map.
    #[tactic(auto, using(primitives::proofs::OpenTests::tests_open), unfolding(model::specs::Tests::pick))]
    fn fits(&self, entry: u16) -> bool
        ensures { result ≡ entry_fitting self.now.limit self.now.is_partial entry }
    {
        if entry == NONE {
            self.is_partial
        } else {
            entry < self.limit
        }
    }

    // Whether all entries fit. It runs to its end, so that many are tested at once.
    fn all_fit(&self) -> bool
        ensures { result ≡ entries_fitting self.now.bytes.now self.now.limit self.now.is_partial }
    {
        self.bytes
            .chunks_exact(2)
            .fold(true, |fit, entry| fit & self.fits(u16_inside(entry, 0)))
    }

    // The check of all entries, one by one only where not all fit, to find the first that does not.
    fn check(&self, map: usize) -> Result<(), Refusal>
        requires { map < 16 }
        ensures { result ≡ entries_from self.now.bytes.now self.now.limit self.now.is_partial map }
    {
        if self.all_fit() {
            return Ok(());
        }
        let mut entries = self.bytes.chunks_exact(2);
        match entries.position(|entry| !self.fits(u16_inside(entry, 0))) {
            Some(element) => Err(Refusal::InvalidEntry(map * 512 + element)),
            None => Ok(()),
        }
    }
}

// The entries of one of the plan's maps. What it asks is in clauses: the layout holds no plan and no map's number.
fn check_map(maps: &[u8], layout: &DataLayout, map: usize) -> Result<(), Refusal>
    requires ready { EntriesReady maps.now layout.now }
    requires listed { map < length maps.now / 3 }
    ensures { (P : Plan) (D : DataSet) → EntrySources P D maps.now layout.now → EntriesPlaced P D layout.now → result ≡ entries_check P D map }
{
    let entries = MapEntries {
        bytes: layout.map_entries(maps, map),
        limit: region_size(layout.sizes, map_target(maps, map)) as u16,
        is_partial: map_totality(maps, map) == 0,
    };
    entries.check(map)
}

// The entries of all maps, in order. A loop of its own, as each section has: one over a closure would have to say in its
// clauses what is checked.
#[tactic(auto, using(primitives::proofs::Scanning::scanned))]
pub fn check_entries(maps: &[u8], layout: &DataLayout) -> Result<(), Refusal>
    requires { EntriesReady maps.now layout.now }
    ensures { (P : Plan) (D : DataSet) → EntrySources P D maps.now layout.now → EntriesPlaced P D layout.now → result ≡ all_entries P D }
{
    for map in 0..maps.len() / 3 {
        check_map(maps, layout, map)?;
    }
    Ok(())
}
