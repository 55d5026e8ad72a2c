// What reading a plan gives where it accepts.
ghost use Rattle.std.specs.Prelude.{◌≡◌, ℕ, ◌<◌, get_or};
ghost use Rattle.model.specs.Layout.{node_count};
ghost use Rattle.model.specs.Nodes.{node_region};
ghost use Rattle.model.specs.AcceptedPlans.{Facts};
ghost use Rattle.layout.specs.Sections.{plan_in};

use crate::{NODE_BYTES, STEP_BYTES};
use layout::sections::PlanSections;
use model::Acceptance;
use primitives::bytes::byte_at;

// The sections of an accepted plan, and the region of each node.
#[derive(Clone, Copy)]
pub struct Reading<'a> {
    pub sections: PlanSections<'a>,
    pub node_regions: [u8; 48],
    pub ghost facts: { Facts (plan_in sections) },
    pub ghost regions_known: { (j : ℕ) → j < node_count (plan_in sections) → get_or node_regions j 0 ≡ node_region (plan_in sections) j },
}

impl Reading<'_> {
    ghost use Rattle.std.specs.Prelude.{◌≡◌, ◌≤◌, ◌<◌};
    ghost use Rattle.model.specs.Layout.{node_count};
    ghost use Rattle.model.specs.Nodes.{node_region};
    ghost use Rattle.model.specs.Verdict.{accepted};
    ghost use Rattle.layout.specs.Sections.{plan_in};

    // What an acceptance carries: there are as many symbols as assignments.
    pub fn acceptance(&self) -> Acceptance
        ensures { result ≡ accepted (plan_in self.now.sections) }
    {
        Acceptance {
            symbols: self.sections.assignments.len(),
            nodes: self.node_count(),
            steps: self.sections.steps.len() / STEP_BYTES,
        }
    }

    // How many nodes there are.
    pub fn node_count(&self) -> usize
        ensures { (result ≡ node_count (plan_in self.now.sections)) × (result ≤ 48) }
    {
        self.sections.nodes.len() / NODE_BYTES
    }

    // The region of node j of those that are listed.
    pub fn node_region(&self, j: usize) -> usize
        requires { j < node_count (plan_in self.now.sections) }
        ensures { result ≡ node_region (plan_in self.now.sections) j }
    {
        byte_at(&self.node_regions, j)
    }
}
