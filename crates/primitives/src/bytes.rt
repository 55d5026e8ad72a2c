// Bytes as numbers, for every place. The results are `usize` with their bound, since places and counts are made of them: as
// `u8` and `u16` each caller would widen them.
// A slice and a place: a record's cells are read at computed places, past the end too, so that a subslice would need a test more.
ghost use Rattle.std.specs.Prelude.{◌≡◌, ◌<◌, get_or};
ghost use Rattle.model.specs.Bytes.{u16};

use crate::lookup::entry_or;

// The byte at a place; 0 past the end.
pub fn byte_at(s: &[u8], at: usize) -> usize
    ensures { (result ≡ get_or s.now at 0) × (result < 256) }
{
    usize::from(entry_or(s, at, 0))
}

// The number in the two bytes at a place, the higher first; bytes past the end are 0.
pub fn u16_at(s: &[u8], at: usize) -> usize
    ensures { (result ≡ u16 s.now at) × (result < 65536) }
{
    if at < s.len() {
        usize::from(u16::from_be_bytes([entry_or(s, at, 0), entry_or(s, at + 1, 0)]))
    } else {
        0
    }
}
