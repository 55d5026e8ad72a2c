// Reads the layout of a data set: whether its sections' lengths and sizes are right, and where each part begins.
ghost use Rattle.std.specs.Prelude.{ℕ, suc, ◌≡◌, ◌↔◌, ◌+◌, ◌*◌, ◌/◌, ◌≤◌, ◌<◌, length, IsTrue};
ghost use Rattle.model.specs.Bytes.{u16};
ghost use Rattle.model.specs.Layout.{Plan, map_count, supplied_count};
ghost use Rattle.model.specs.DataSets.{DataSet, entry_start, member_start};
ghost use Rattle.dataset.specs.Layout.{FewDeclarations, DeclarationSources, EntryStartSources, MemberStartSources, PartsPlaced, LayoutRead};

use crate::cells::region_size;
use crate::layout::DataLayout;
use bitsets::words::u16_inside;
use model::Refusal;
use primitives::bytes::byte_at;
use primitives::records::{map_source, supplied_region};
use primitives::sections::{ENTRIES, MEMBERS, PIECE_COUNT, SIZES, read_frame, section_body};

// The sections of a data set: the number of pieces, the sizes, the entries, the members.
pub const DATA_SECTIONS: usize = 4;

// N is at most this.
const MOST_PIECES: usize = 16;

// Where so many parts that stand in a row begin, each as wide as told, and where the last one ends. None is wider than 255
// pieces of 8192 bytes, the most that a byte and a size of 16 bits can say, so that no sum wraps.
fn place_parts<const N: usize, W: Fn(usize) -> usize>(count: usize, width: W) -> ([usize; N], usize)
    requires few { (count ≤ N) × (N ≤ 16) }
    requires callable { (part : ℕ) → part < count → W.pre width part }
    requires narrow { (part bytes : ℕ) → part < count → W.post width part bytes → bytes ≤ 2088960 }
    ensures { (start : ℕ → ℕ) → start 0 ≡ 0 → ((part bytes : ℕ) → part < count → W.post width part bytes → start (suc part) ≡ start part + bytes) → PartsPlaced start count result.0 result.1 }
{
    let mut starts = [0usize; N];
    let mut end = 0;
    for part in 0..count {
        starts[part] = end;
        end += width(part);
    }
    (starts, end)
}

// The maps in order, an entry of two bytes per source element.
fn place_entries(maps: &[u8], sizes: &[u8]) -> ([usize; 16], usize)
    requires { length maps.now / 3 ≤ 16 }
    ensures { (P : Plan) (D : DataSet) → EntryStartSources P D maps.now sizes.now → PartsPlaced (entry_start P D) (map_count P) result.0 result.1 }
{
    place_parts(maps.len() / 3, |map| {
        2 * region_size(sizes, map_source(maps, map))
    })
}

// The supplied partitions in order, piece by piece, each piece in whole bytes.
fn place_members(supplied: &[u8], pieces: usize, sizes: &[u8]) -> ([usize; 8], usize)
    requires { (length supplied.now / 2 ≤ 8) × (pieces < 256) }
    ensures { (P : Plan) (D : DataSet) → MemberStartSources P D supplied.now pieces sizes.now → PartsPlaced (member_start P D) (supplied_count P) result.0 result.1 }
{
    place_parts(supplied.len() / 2, |partition| {
        let size = region_size(sizes, supplied_region(supplied, partition));
        pieces * size.div_ceil(8)
    })
}

// Whether each region's size is at most 512.
fn sizes_fit(sizes: &[u8]) -> bool
    ensures { IsTrue result ↔ ((region : ℕ) → region < length sizes.now / 2 → u16 sizes.now (2 * region) ≤ 512) }
{
    sizes.chunks_exact(2).all(|size| u16_inside(size, 0) <= 512)
}

// The layout of a data set, read against the sections of a plan that declare its parts: their bodies are handed to each
// reader as slices (project's form).
pub fn read_layout<'a>(
    regions: &[u8],
    maps: &[u8],
    supplied: &[u8],
    data: &'a [u8],
) -> Result<DataLayout<'a>, Refusal>
    requires { FewDeclarations maps.now supplied.now }
    ensures { (P : Plan) → DeclarationSources P regions.now maps.now supplied.now → LayoutRead P «data».now result }
{
    let frame = read_frame(data, DATA_SECTIONS);
    if byte_at(data, 0) != 1 || data.len() != frame.boundaries[DATA_SECTIONS] {
        return Err(Refusal::InvalidData);
    }
    let piece_count = section_body(data, frame, PIECE_COUNT);
    let pieces = byte_at(piece_count, 0);
    if piece_count.len() != 1 || pieces < 1 || pieces > MOST_PIECES {
        return Err(Refusal::InvalidData);
    }
    let sizes = section_body(data, frame, SIZES);
    if sizes.len() != 2 * regions.len() || !sizes_fit(sizes) {
        return Err(Refusal::InvalidData);
    }
    let entries = section_body(data, frame, ENTRIES);
    let members = section_body(data, frame, MEMBERS);
    let (entry_starts, entries_end) = place_entries(maps, sizes);
    let (member_starts, members_end) = place_members(supplied, pieces, sizes);
    if entries.len() != entries_end || members.len() != members_end {
        return Err(Refusal::InvalidData);
    }
    Ok(DataLayout {
        pieces,
        sizes,
        entries,
        members,
        entry_starts,
        member_starts,
    })
}
