// The sections of a plan or a data set, each "a u16 length, then a body", behind the edition byte.
ghost use Rattle.std.specs.Prelude.{◌≡◌, suc, ◌<◌, ◌≤◌, get_or};
ghost use Rattle.model.specs.Bytes.{body};
ghost use Rattle.primitives.specs.Sections.{frame_of, Delimits};

use crate::bytes::{byte_at, u16_at};

// The section of a plan that a report reads again: how many others it comes after.
pub const ASSIGNMENTS: usize = 5;

// The sections of a data set.
pub const PIECE_COUNT: usize = 0;

pub const SIZES: usize = 1;

pub const ENTRIES: usize = 2;

pub const MEMBERS: usize = 3;

// The place after so many sections, for none to 8 of them; 0 for more than were read. An array and no `ArrayVec`, which is
// not `Copy`; and how many were read is known where it is read.
#[derive(Clone, Copy)]
pub struct Frame {
    pub boundaries: [usize; 9],
}

// The frame of the first sections, as many as asked for, whether or not the bytes have them.
pub fn read_frame(s: &[u8], sections: usize) -> Frame
    requires { sections ≤ 8 }
    ensures { result ≡ frame_of sections s.now }
{
    let mut boundaries = [0usize; 9];
    let mut at = 1;
    boundaries[0] = at;
    for n in 0..sections {
        at = at + 2 + u16_at(s, at);
        boundaries[n + 1] = at;
    }
    Frame { boundaries }
}

// The body of the section after n others.
pub fn section_body(s: &[u8], frame: Frame, n: usize) -> &[u8]
    requires { Delimits (suc n) s.now frame }
    ensures { result.now ≡ body s.now n }
{
    let boundaries = frame.boundaries;
    let start = boundaries[n] + 2;
    let end = boundaries[n + 1];
    &s[start..end]
}

// A byte of the body of the section after n others; 0 past its end.
pub fn body_byte(s: &[u8], n: usize, place: usize) -> usize
    requires { n < 8 }
    ensures { (result ≡ get_or (body s.now n) place 0) × (result < 256) }
{
    let frame = read_frame(s, n + 1);
    let boundaries = frame.boundaries;
    let start = boundaries[n] + 2;
    if place < boundaries[n + 1] - start {
        byte_at(s, start + place)
    } else {
        0
    }
}
