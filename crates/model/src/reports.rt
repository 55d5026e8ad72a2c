// What an answer reports, as numbers.
ghost use Rattle.std.specs.Prelude.{◌≡◌};
ghost use Rattle.model.specs.Answers.{report, refusal_report, written_report, charge_report};

use crate::{Acceptance, Charge, ChargeReport, Refusal, Report, WrittenReport};

impl Refusal {
    // The table of refusals: columns "no." and "place".
    fn number_and_place(self) -> (usize, usize)
        ensures number { result.0 ≡ (refusal_report self).number }
        ensures place { result.1 ≡ (refusal_report self).place }
    {
        match self {
            Refusal::Truncated(section) => (1, section),
            Refusal::UnknownEdition => (2, 0),
            Refusal::TrailingBytes(offset) => (3, offset),
            Refusal::InvalidLength(section) => (4, section),
            Refusal::InvalidRecord(place) => (5, place),
            Refusal::RegionMismatch(place) => (6, place),
            Refusal::DuplicateNode(node) => (7, node),
            Refusal::NotParallelizable(statement) => (8, statement),
            Refusal::AssignmentCount(symbols) => (9, symbols),
            Refusal::UnlicensedStep(step) => (10, step),
            Refusal::UnmetNeed(symbol) => (11, symbol),
            Refusal::InvalidData => (12, 0),
            Refusal::InvalidEntry(place) => (13, place),
            Refusal::InvalidPartition(partition) => (14, partition),
            Refusal::OutputTooSmall(length) => (15, length),
            Refusal::NotFound(what) => (16, what),
            Refusal::InvalidCharge(what) => (17, what),
        }
    }

    // Its number in the table of refusals, from 1 on.
    pub fn number(self) -> usize
        ensures { result ≡ (refusal_report self).number }
    {
        self.number_and_place().0
    }

    // Its place: what the number is said of.
    pub fn place(self) -> usize
        ensures { result ≡ (refusal_report self).place }
    {
        self.number_and_place().1
    }
}

// On refusal "counts 0".
impl From<Result<Acceptance, Refusal>> for Report {
    ghost from_gives = { λ answer told. told ≡ report answer };

    #[tactic(auto, unfolding(crate::specs::Answers::report))]
    fn from(answer: Result<Acceptance, Refusal>) -> Self {
        match answer {
            Ok(acceptance) => Report {
                number: 0,
                place: 0,
                symbols: acceptance.symbols,
                nodes: acceptance.nodes,
                steps: acceptance.steps,
            },
            Err(refusal) => Report {
                number: refusal.number(),
                place: refusal.place(),
                symbols: 0,
                nodes: 0,
                steps: 0,
            },
        }
    }
}

// On refusal length 0.
impl From<Result<usize, Refusal>> for WrittenReport {
    ghost from_gives = { λ answer told. told ≡ written_report answer };

    #[tactic(auto, unfolding(crate::specs::Answers::written_report))]
    fn from(answer: Result<usize, Refusal>) -> Self {
        match answer {
            Ok(length) => WrittenReport {
                number: 0,
                place: 0,
                length,
            },
            Err(refusal) => WrittenReport {
                number: refusal.number(),
                place: refusal.place(),
                length: 0,
            },
        }
    }
}

// On refusal count, cents and remainder 0.
impl From<Result<Charge, Refusal>> for ChargeReport {
    ghost from_gives = { λ answer told. told ≡ charge_report answer };

    #[tactic(auto, unfolding(crate::specs::Answers::charge_report))]
    fn from(answer: Result<Charge, Refusal>) -> Self {
        match answer {
            Ok(charge) => ChargeReport {
                number: 0,
                place: 0,
                count: charge.count,
                cents: charge.cents,
                remainder: charge.remainder,
            },
            Err(refusal) => ChargeReport {
                number: refusal.number(),
                place: refusal.place(),
                count: 0,
                cents: 0,
                remainder: 0,
            },
        }
    }
}
