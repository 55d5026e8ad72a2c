// The kinds that bytes stand for.
ghost use Rattle.std.specs.Prelude.{◌≡◌};
ghost use Rattle.model.specs.Statements.{kind_of};
ghost use Rattle.model.specs.Nodes.{node_kind_of};

use crate::{NodeKind, StatementKind};

// The kind that a statement's first byte stands for.
impl From<u8> for StatementKind {
    ghost from_gives = { λ byte kind. kind ≡ kind_of byte };

    #[tactic(auto, unfolding(crate::specs::Statements::kind_of))]
    fn from(byte: u8) -> Self {
        match byte {
            0 => StatementKind::For,
            1 => StatementKind::Load,
            2 => StatementKind::Call,
            3 => StatementKind::Copy,
            4 => StatementKind::Read,
            5 => StatementKind::Write,
            6 => StatementKind::Reduce,
            _ => StatementKind::Unknown,
        }
    }
}

// The kind that a node's first byte stands for.
impl From<u8> for NodeKind {
    ghost from_gives = { λ byte kind. kind ≡ node_kind_of byte };

    #[tactic(auto, unfolding(crate::specs::Nodes::node_kind_of))]
    fn from(byte: u8) -> Self {
        match byte {
            0 => NodeKind::Supplied,
            1 => NodeKind::Equal,
            2 => NodeKind::Union,
            3 => NodeKind::Intersection,
            4 => NodeKind::Difference,
            5 => NodeKind::Image,
            6 => NodeKind::Preimage,
            _ => NodeKind::Unknown,
        }
    }
}
