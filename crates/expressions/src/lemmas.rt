// The table of the 21 lemmas: what each concludes, and which of a step's numbers it uses.
// A constant table of rows, and one row for a number that is no lemma: the project's form.
ghost use Rattle.std.specs.Prelude.{◌≡◌, ◌-◌};
ghost use Rattle.model.specs.Lemmas.{lemma_row};

use model::{Conclusion, Lemma};
use primitives::lookup::entry_or;

const LEMMAS: [Lemma; 21] = [
    Lemma {
        conclusion: Conclusion::Disjoint, // 1 DISJ(x): x is equal
        x: true,
        y: false,
        p: false,
        q: false,
    },
    Lemma {
        conclusion: Conclusion::Complete, // 2 COMP(x): x is equal
        x: true,
        y: false,
        p: false,
        q: false,
    },
    Lemma {
        conclusion: Conclusion::Disjoint, // 3 DISJ(x): x is supplied and declared disjoint
        x: true,
        y: false,
        p: false,
        q: false,
    },
    Lemma {
        conclusion: Conclusion::Complete, // 4 COMP(x): x is supplied and declared complete
        x: true,
        y: false,
        p: false,
        q: false,
    },
    Lemma {
        conclusion: Conclusion::Subset, // 5 SUB(x, x): y = x
        x: true,
        y: true,
        p: false,
        q: false,
    },
    Lemma {
        conclusion: Conclusion::Subset, // 6 SUB(x, y): p is SUB(x, z), q is SUB(z, y)
        x: true,
        y: true,
        p: true,
        q: true,
    },
    Lemma {
        conclusion: Conclusion::Subset, // 7 SUB(x, y): y is a union with operand x
        x: true,
        y: true,
        p: false,
        q: false,
    },
    Lemma {
        conclusion: Conclusion::Subset, // 8 SUB(x, y): x is the union of a and b; p is SUB(a, y), q is SUB(b, y)
        x: true,
        y: true,
        p: true,
        q: true,
    },
    Lemma {
        conclusion: Conclusion::Subset, // 9 SUB(x, y): x is an intersection with operand y
        x: true,
        y: true,
        p: false,
        q: false,
    },
    Lemma {
        conclusion: Conclusion::Subset, // 10 SUB(x, y): y is the intersection of a and b; p is SUB(x, a), q is SUB(x, b)
        x: true,
        y: true,
        p: true,
        q: true,
    },
    Lemma {
        conclusion: Conclusion::Subset, // 11 SUB(x, y): x is y minus something
        x: true,
        y: true,
        p: false,
        q: false,
    },
    Lemma {
        conclusion: Conclusion::Subset, // 12 SUB(x, y): x and y are images of a and b under one map; p is SUB(a, b)
        x: true,
        y: true,
        p: true,
        q: false,
    },
    Lemma {
        conclusion: Conclusion::Subset, // 13 SUB(x, y): x and y are preimages of a and b under one map; p is SUB(a, b)
        x: true,
        y: true,
        p: true,
        q: false,
    },
    Lemma {
        conclusion: Conclusion::Subset, // 14 SUB(x, y): x is the image of a under f; p is SUB(a, preimage of y under f)
        x: true,
        y: true,
        p: true,
        q: false,
    },
    Lemma {
        conclusion: Conclusion::Disjoint, // 15 DISJ(x): p is DISJ(y), q is SUB(x, y)
        x: true,
        y: true,
        p: true,
        q: true,
    },
    Lemma {
        conclusion: Conclusion::Disjoint, // 16 DISJ(x): x is an intersection, p is DISJ of an operand
        x: true,
        y: false,
        p: true,
        q: false,
    },
    Lemma {
        conclusion: Conclusion::Disjoint, // 17 DISJ(x): x is a minus b, p is DISJ(a)
        x: true,
        y: false,
        p: true,
        q: false,
    },
    Lemma {
        conclusion: Conclusion::Disjoint, // 18 DISJ(x): x is a preimage of a, p is DISJ(a)
        x: true,
        y: false,
        p: true,
        q: false,
    },
    Lemma {
        conclusion: Conclusion::Complete, // 19 COMP(x): p is COMP(y), q is SUB(y, x)
        x: true,
        y: true,
        p: true,
        q: true,
    },
    Lemma {
        conclusion: Conclusion::Complete, // 20 COMP(x): x is a preimage of a under a total map, p is COMP(a)
        x: true,
        y: false,
        p: true,
        q: false,
    },
    Lemma {
        conclusion: Conclusion::Disjoint, // 21 DISJ(x): x is the private part of an image of a, p is DISJ(a)
        x: true,
        y: false,
        p: true,
        q: false,
    },
];

// The row of a number that is no lemma: nothing is used.
const NO_LEMMA: Lemma = Lemma {
    conclusion: Conclusion::Subset,
    x: false,
    y: false,
    p: false,
    q: false,
};

// The row of a lemma. Lemmas are numbered from 1; 0 has the row of 1.
#[tactic(auto, unfolding(model::specs::Lemmas::lemma_row, model::specs::Lemmas::lemmas))]
pub fn lemma_row(lemma: usize) -> Lemma
    ensures { result ≡ lemma_row lemma }
{
    entry_or(&LEMMAS, lemma.saturating_sub(1), NO_LEMMA)
}
