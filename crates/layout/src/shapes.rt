// The table of sections, and the check of a section by it.
ghost use Rattle.std.specs.Prelude.{◌≡◌, ◌<◌};
ghost use Rattle.model.specs.Layout.{SECTIONS};
ghost use Rattle.layout.specs.Frames.{Shaped, Placed, length_check};

use model::Refusal;
use primitives::outcomes::require;

// A row of the table of sections: the bytes of a record, the least and the most records.
#[derive(Clone, Copy)]
struct Shape {
    width: usize,
    fewest: usize,
    most: usize,
}

// The sections of a plan.
pub const SECTIONS: usize = 7;

const SHAPES: [Shape; 7] = [
    Shape {
        width: 1,
        fewest: 1,
        most: 16,
    },
    Shape {
        width: 3,
        fewest: 0,
        most: 16,
    },
    Shape {
        width: 2,
        fewest: 0,
        most: 8,
    },
    Shape {
        width: 4,
        fewest: 0,
        most: 64,
    },
    Shape {
        width: 4,
        fewest: 0,
        most: 48,
    },
    Shape {
        width: 1,
        fewest: 0,
        most: 64,
    },
    Shape {
        width: 5,
        fewest: 0,
        most: 128,
    },
];

// The row of a section, numbered from 0.
fn shape_of(section: usize) -> Shape
    requires { section < SECTIONS }
    ensures { Shaped section result }
{
    SHAPES[section]
}

// Whether a section, numbered from 0, whose length `size` stands at a place, ends within the bytes and has whole records, as
// many as it may.
#[tactic(auto, using(primitives::proofs::OpenTests::tests_open, primitives::proofs::Stages::stages), unfolding(crate::specs::Frames::length_check))]
pub fn check_section(bytes: usize, at: usize, size: usize, section: usize) -> Result<(), Refusal>
    requires { Placed bytes at size section }
    ensures { result ≡ length_check bytes at size section }
{
    let shape = shape_of(section);
    let width = shape.width;
    let count = size / width;
    let inside = (at + 2 <= bytes) & (at + 2 + size <= bytes);
    require(inside, Refusal::Truncated(section + 1))?;
    let whole = (size % width == 0) & ((shape.fewest <= count) & (count <= shape.most));
    require(whole, Refusal::InvalidLength(section + 1))
}
