// What the checks of sections 6 and 7 take from those of sections 4 and 5.
// What is asked of a statement or a node has a clause that it is there: its number is a place in a section, and the struct
// holds the section.
ghost use Rattle.layout.specs.Sections.{plan_in};
ghost use Rattle.plan.specs.Tables.{TablesKnown};

use crate::{NODE_BYTES, STATEMENT_BYTES, STEP_BYTES};
use expressions::nodes::NodeTables;
use layout::sections::PlanSections;
use loops::statements::kind_at;
use loops::tables::StatementTables;
use model::StatementKind;
use primitives::bytes::byte_at;

// The sections of a plan whose statements and nodes passed, and the tables that their checks left.
#[derive(Clone, Copy)]
pub struct PlanTables<'a> {
    pub sections: PlanSections<'a>,
    pub statements: &'a StatementTables,
    pub nodes: &'a NodeTables,
    pub ghost known: { TablesKnown (plan_in sections) statements.now nodes.now },
}

impl PlanTables<'_> {
    ghost use Rattle.std.specs.Prelude.{◌≡◌, ◌<◌, ◌≤◌};
    ghost use Rattle.model.specs.Layout.{statement_count, statement_a, node_count, step_count, assigned};
    ghost use Rattle.model.specs.Statements.{kind, operand_definition, operand_region};
    ghost use Rattle.model.specs.Nodes.{node_region};
    ghost use Rattle.plan.specs.Plans.{plan_at};

    // How many statements there are. The three counts are a line each, whose name says more than a parameter.
    pub fn statement_count(&self) -> usize
        ensures { (result ≡ statement_count (plan_at self.now)) × (result ≤ 64) }
    {
        self.sections.statements.len() / STATEMENT_BYTES
    }

    // How many nodes.
    pub fn node_count(&self) -> usize
        ensures { (result ≡ node_count (plan_at self.now)) × (result ≤ 48) }
    {
        self.sections.nodes.len() / NODE_BYTES
    }

    // How many steps.
    pub fn step_count(&self) -> usize
        ensures { (result ≡ step_count (plan_at self.now)) × (result ≤ 128) }
    {
        self.sections.steps.len() / STEP_BYTES
    }

    // The kind of statement s.
    pub fn kind(&self, s: usize) -> StatementKind
        requires { s < statement_count (plan_at self.now) }
        ensures { result ≡ kind (plan_at self.now) s }
    {
        kind_at(self.sections.statements, s)
    }

    // The first number of statement s: the region of a FOR, the map of a LOAD or CALL.
    pub fn first_number(&self, s: usize) -> usize
        requires { s < statement_count (plan_at self.now) }
        ensures { (result ≡ statement_a (plan_at self.now) s) × (result < 256) }
    {
        byte_at(self.sections.statements, s * STATEMENT_BYTES + 1)
    }

    // The statement that defines the variable that statement s works on.
    #[tactic(auto, using(crate::proofs::TableLaws::operand_is))]
    pub fn operand(&self, s: usize) -> usize
        requires { s < statement_count (plan_at self.now) }
        ensures { (result ≡ operand_definition (plan_at self.now) s) × (result < 256) }
    {
        byte_at(&self.statements.operands, s)
    }

    // The region of that variable.
    #[tactic(auto, using(crate::proofs::TableLaws::operand_region_is))]
    pub fn operand_region(&self, s: usize) -> usize
        requires { s < statement_count (plan_at self.now) }
        ensures { result ≡ operand_region (plan_at self.now) s }
    {
        byte_at(&self.statements.variable_regions, self.operand(s))
    }

    // The node that is assigned to a symbol.
    pub fn assigned(&self, symbol: usize) -> usize
        ensures { (result ≡ assigned (plan_at self.now) symbol) × (result < 256) }
    {
        byte_at(self.sections.assignments, symbol)
    }

    // The region of node j.
    pub fn node_region(&self, j: usize) -> usize
        requires { j < node_count (plan_at self.now) }
        ensures { result ≡ node_region (plan_at self.now) j }
    {
        byte_at(&self.nodes.regions, j)
    }
}
