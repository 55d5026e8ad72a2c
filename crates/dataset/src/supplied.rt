// The supplied partitions: whether each keeps its flags.
ghost use Rattle.std.specs.Prelude.{◌≡◌, ◌+◌, ◌/◌, ◌≤◌, ◌<◌, length};
ghost use Rattle.model.specs.Layout.{Plan};
ghost use Rattle.model.specs.DataSets.{DataSet, declarations_hold};
ghost use Rattle.dataset.specs.Columns.{column_of, piece_word, column_at, columns_keep_flags};
ghost use Rattle.dataset.specs.Layout.{MembersPlaced};
ghost use Rattle.dataset.specs.Supplied.{SuppliedReady, SuppliedSources, all_supplied};

use crate::cells::region_size;
use crate::layout::DataLayout;
use bitsets::words::{eight_bytes, reverse_bytes, word_below, word_between};
use model::Refusal;
use primitives::outcomes::require;
use primitives::records::{COMPLETE, DISJOINT, is_declared, supplied_flags, supplied_region};

// Eight bytes of each piece: the elements in some piece, and those in two.
#[derive(Clone, Copy)]
struct Column {
    seen: u64,
    repeated: u64,
}

// The pieces of one supplied partition, over a region of so many elements: the members from its first piece on, and whether
// it is declared disjoint and complete.
#[derive(Clone, Copy)]
struct SuppliedPieces<'a> {
    members: &'a [u8],
    size: usize,
    pieces: usize,
    is_disjoint: bool,
    is_complete: bool,
    ghost few_pieces: { pieces ≤ 16 },
    ghost small_region: { size ≤ 512 },
}

impl SuppliedPieces<'_> {
    // The bytes of a piece.
    fn width(&self) -> usize
        ensures { result ≡ (self.now.size + 7) / 8 }
    {
        self.size.div_ceil(8)
    }

    // The elements of a column.
    #[tactic(auto, using(crate::proofs::Columns::united_next, crate::proofs::Columns::repeated_next), unfolding(crate::specs::Columns::united, crate::specs::Columns::repeated))]
    fn read_column(&self, column: usize) -> Column
        requires { column < 8 }
        ensures { result ≡ column_of (piece_word self.now.members.now ((self.now.size + 7) / 8) column) self.now.pieces }
    {
        let members = self.members;
        let width = self.width();
        let mut seen = 0;
        let mut repeated = 0;
        for piece in 0..self.pieces {
            let word = eight_bytes(members, piece * width + 8 * column);
            repeated |= seen & word;
            seen |= word;
        }
        Column {
            seen: reverse_bytes(seen),
            repeated: reverse_bytes(repeated),
        }
    }

    // Whether a column has no element in two pieces, none missing, where that is declared, and no bit behind the last element.
    #[tactic(auto, using(primitives::proofs::OpenTests::tests_open))]
    fn column_keeps_flags(&self, column: usize) -> bool
        requires { column < 8 }
        ensures { result ≡ column_at self.now.members.now self.now.size self.now.pieces self.now.is_disjoint self.now.is_complete column }
    {
        let bits = self.read_column(column);
        let elements = word_below(self.size, column);
        let pad = word_between(self.size, 8 * self.width(), column);
        (!self.is_disjoint | ((bits.repeated & elements) == 0))
            & ((!self.is_complete | ((bits.seen & elements) == elements))
                & ((bits.seen & pad) == 0))
    }

    // Whether each column does.
    fn keep_flags(&self) -> bool
        ensures { result ≡ columns_keep_flags self.now.members.now self.now.size self.now.pieces self.now.is_disjoint self.now.is_complete }
    {
        (0..self.size.div_ceil(64)).all(|column| self.column_keeps_flags(column))
    }
}

// Whether one of the plan's supplied partitions keeps its flags. What it asks is in clauses: the layout holds no plan and no
// partition's number.
fn partition_keeps_flags(supplied: &[u8], layout: &DataLayout, partition: usize) -> bool
    requires ready { SuppliedReady supplied.now layout.now }
    requires listed { partition < length supplied.now / 2 }
    ensures { (P : Plan) (D : DataSet) → SuppliedSources P D supplied.now layout.now → MembersPlaced P D layout.now → result ≡ declarations_hold P D partition }
{
    let start = layout.member_starts[partition];
    let flags = supplied_flags(supplied, partition);
    let pieces = SuppliedPieces {
        members: &layout.members[start..],
        size: region_size(layout.sizes, supplied_region(supplied, partition)),
        pieces: layout.pieces,
        is_disjoint: is_declared(flags, DISJOINT),
        is_complete: is_declared(flags, COMPLETE),
    };
    pieces.keep_flags()
}

// The flags of all supplied partitions, in order. A loop of its own, as each section has: one over a closure would have to
// say in its clauses what is checked.
#[tactic(auto, using(primitives::proofs::Scanning::scanned))]
pub fn check_supplied(supplied: &[u8], layout: &DataLayout) -> Result<(), Refusal>
    requires { SuppliedReady supplied.now layout.now }
    ensures { (P : Plan) (D : DataSet) → SuppliedSources P D supplied.now layout.now → MembersPlaced P D layout.now → result ≡ all_supplied P D }
{
    for partition in 0..supplied.len() / 2 {
        require(
            partition_keeps_flags(supplied, layout, partition),
            Refusal::InvalidPartition(partition),
        )?;
    }
    Ok(())
}
