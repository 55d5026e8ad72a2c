// Section 7: lemma steps. The sections' bodies are slices: they are handed to each section's reader (project's form).
// Numbers are narrowed by `as`: the bound is proved, and `try_from` would have a case that never comes.
ghost use Rattle.std.specs.Prelude.{◌≡◌, ◌+◌, ◌*◌, ◌/◌, ◌≤◌, ◌<◌, length};
ghost use Rattle.model.specs.Tests.{Is};
ghost use Rattle.model.specs.Layout.{Plan};
ghost use Rattle.model.specs.Lemmas.{lemma_row, in_use, step_formed};
ghost use Rattle.expressions.specs.Steps.{StepSources, subset_key, disjoint_key, complete_key, conclusion_key, StepRead, FormedStep, StepsRead};

use crate::lemmas::lemma_row;
use crate::licences::is_licensed;
pub use crate::records::Step;
use model::{Conclusion, Lemma, Refusal};
use primitives::outcomes::require;

// What steps p and q of a step conclude, as keys.
#[derive(Clone, Copy, Debug, PartialEq, Eq)]
pub struct Premises {
    pub p: u32,
    pub q: u32,
}

// The record of step t, which is there. A reader of its own, as at `nodes::read_node`.
fn step_at(steps: &[u8], t: usize) -> Step
    requires { t * 5 + 4 < length steps.now }
    ensures { (P : Plan) → P.steps ≡ steps.now → StepRead P t result }
{
    Step::from([
        steps[t * 5],
        steps[t * 5 + 1],
        steps[t * 5 + 2],
        steps[t * 5 + 3],
        steps[t * 5 + 4],
    ])
}

// SUB(x, y) as a key: one number for what a step concludes. An enum of the three is searched in more than twice the time. It has
// a byte for x and one for y: `Step` holds the bounds of its own, and no struct those of a variable's bound in a node.
pub fn subset_key(x: usize, y: usize) -> u32
    requires { (x < 256) × (y < 256) }
    ensures { result ≡ subset_key x y }
{
    (x * 256 + y) as u32
}

// DISJ(x) as a key. It and COMP have a function each: the name says more than their constant as a parameter.
pub fn disjoint_key(x: usize) -> u32
    requires { x < 256 }
    ensures { result ≡ disjoint_key x }
{
    (65536 + x * 256) as u32
}

// COMP(x) as a key.
pub fn complete_key(x: usize) -> u32
    requires { x < 256 }
    ensures { result ≡ complete_key x }
{
    (131072 + x * 256) as u32
}

// What a step of this form concludes of x and y, as a key.
#[tactic(auto, unfolding(crate::specs::Steps::conclusion_key))]
fn conclusion_key(conclusion: Conclusion, x: usize, y: usize) -> u32
    requires { (x < 256) × (y < 256) }
    ensures { result ≡ conclusion_key conclusion x y }
{
    match conclusion {
        Conclusion::Subset => subset_key(x, y),
        Conclusion::Disjoint => disjoint_key(x),
        Conclusion::Complete => complete_key(x),
    }
}

// A number that is used is below its bound; one that is not is 0.
#[tactic(auto, using(primitives::proofs::OpenTests::tests_open), unfolding(model::specs::Lemmas::in_use))]
fn in_use(used: bool, bound: usize, number: usize) -> bool
    ensures used { result ≡ in_use used bound number }
    ensures most { Is result → number ≤ bound }
{
    if used { number < bound } else { number == 0 }
}

impl Step {
    // Whether, as step t, its lemma is known, and x, y, p and q are as its row has them.
    #[tactic(auto, using(primitives::proofs::OpenTests::tests_open), unfolding(model::specs::Lemmas::step_formed))]
    fn is_formed(self, nodes: &[u8], row: Lemma, t: usize) -> bool
        requires { row ≡ lemma_row self.lemma }
        ensures formed { Is result → FormedStep self t }
        ensures read { (P : Plan) → P.nodes ≡ nodes.now → StepRead P t self → result ≡ step_formed P t }
    {
        let count = nodes.len() / 4;
        let x = in_use(row.x, count, self.x);
        let y = in_use(row.y, count, self.y);
        let p = in_use(row.p, t, self.p);
        let q = in_use(row.q, t, self.q);
        (1 <= self.lemma) & (self.lemma <= 21) & x & y & p & q
    }
}

// Section 7: the first refusal of its steps in order, and the table of what they conclude. The table is lent: handed out, its
// copies make the check of three steps a fifth slower.
#[tactic(auto, using(primitives::proofs::Scanning::scanned, primitives::proofs::Stages::stages))]
pub fn check_steps(
    maps: &[u8],
    supplied: &[u8],
    nodes: &[u8],
    steps: &[u8],
    conclusions: &mut [u32; 128],
) -> Result<(), Refusal>
    requires { (length steps.now / 5 ≤ 128) × (length conclusions.old ≡ 128) }
    ensures { (length conclusions.new ≡ 128) × ((P : Plan) → StepSources P maps.now supplied.now nodes.now steps.now → StepsRead P result conclusions.new) }
{
    for t in 0..steps.len() / 5 {
        let step = step_at(steps, t);
        let row = lemma_row(step.lemma);
        conclusions[t] = conclusion_key(row.conclusion, step.x, step.y);
        require(
            step.is_formed(nodes, row, t),
            Refusal::InvalidRecord(7 * 256 + t),
        )?;
        let premises = Premises {
            p: conclusions[step.p],
            q: conclusions[step.q],
        };
        require(
            is_licensed(maps, supplied, nodes, steps, step, premises),
            Refusal::UnlicensedStep(t),
        )?;
    }
    Ok(())
}
