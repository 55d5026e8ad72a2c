// The sections of a plan, handed out one after the other.
ghost use Rattle.std.specs.Prelude.{◌≡◌, ◌+◌, ◌<◌, MatchResult};
ghost use Rattle.model.specs.Bytes.{body};
ghost use Rattle.model.specs.Layout.{SECTIONS, layout_check};
ghost use Rattle.layout.specs.Frames.{Progress};

use crate::shapes::{SECTIONS, check_section};
use model::Refusal;
use primitives::bytes::u16_at;
use primitives::outcomes::require;

// A plan of edition 1 whose first sections, `read` of them, passed, and the place after them. The whole plan and a place, not a
// rest slice: bytes after the last section are refused at their place in the plan. The number picks the next section's row.
#[derive(Drop)]
pub struct SectionReader<'a> {
    plan: &'a [u8],
    read: usize,
    at: usize,
    ghost past: { Progress plan.now read at },
}

impl<'a> SectionReader<'a> {
    // A plan of edition 1, before its first section.
    #[tactic(auto, using(crate::proofs::Frames::starting))]
    pub fn new(plan: &'a [u8]) -> Result<Self, Refusal>
        ensures { MatchResult result (λ reader. (reader.plan.now ≡ plan.now) × (reader.read ≡ 0)) (λ r. layout_check plan.now ≡ Err r) }
    {
        if plan.is_empty() {
            return Err(Refusal::Truncated(0));
        }
        if plan[0] != 1 {
            return Err(Refusal::UnknownEdition);
        }
        Ok(SectionReader {
            plan,
            read: 0,
            at: 1,
        })
    }

    // The body of the next section.
    #[tactic(auto, using(crate::proofs::Frames::progressing))]
    pub fn next_section(&mut self) -> Result<&'a [u8], Refusal>
        requires { self.old.read < SECTIONS }
        ensures { MatchResult result
            (λ section. (section.now ≡ body self.old.plan.now self.old.read) × (self.new.plan.now ≡ self.old.plan.now) × (self.new.read ≡ self.old.read + 1))
            (λ r. layout_check self.old.plan.now ≡ Err r) }
    {
        let size = u16_at(self.plan, self.at);
        check_section(self.plan.len(), self.at, size, self.read)?;
        let start = self.at + 2;
        self.at = start + size;
        self.read += 1;
        Ok(&self.plan[start..self.at])
    }

    // Nothing may stand after the last section.
    pub fn finish(self) -> Result<(), Refusal>
        requires { self.read ≡ SECTIONS }
        ensures { result ≡ layout_check self.entry.plan.now }
    {
        require(self.plan.len() <= self.at, Refusal::TrailingBytes(self.at))
    }
}
