// The sections of a plan whose layout passes.
ghost use Rattle.model.specs.AcceptedPlans.{Limits};
ghost use Rattle.layout.specs.Bodies.{plan_with};

// The bodies of the seven sections: whole records, as many as each section may have.
#[derive(Clone, Copy)]
pub struct PlanSections<'a> {
    pub regions: &'a [u8],
    pub maps: &'a [u8],
    pub supplied: &'a [u8],
    pub statements: &'a [u8],
    pub nodes: &'a [u8],
    pub assignments: &'a [u8],
    pub steps: &'a [u8],
    pub ghost limits: { Limits (plan_with regions.now maps.now supplied.now statements.now nodes.now assignments.now steps.now) },
}
