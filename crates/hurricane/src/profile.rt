// A customer's own pressure profile: check 20 of its table, entry by entry, so that a table is judged alike as it is lent and as its text is read.
#![tactic(auto, unfolding(crate::specs::Profile::judged_with, crate::specs::Profile::judged_end))]

ghost use Rattle.std.specs.Prelude.{◌≡◌};
ghost use Rattle.hurricane.specs.Profile.{none_judged, judged_with, judged_end, profile_check};

use super::field::WHOLE;
use ranges::Range;
use records::limits::inside;
use records::{Kind, Refusal, need};

// How many entries a table has.
pub const ENTRIES: usize = 1_001;

// Entries of a table that are as they have to be: how many, and the last of them. Before the first it is what that one has to be.
#[derive(Clone, Copy, Debug, PartialEq, Eq)]
pub struct Judged {
    pub count: usize,
    pub last: i64,
}

impl Judged {
    // Before the first entry.
    pub fn none() -> Self
        ensures { result ≡ none_judged }
    {
        Judged {
            count: 0,
            last: WHOLE,
        }
    }

    // With the next entry, or its refusal.
    pub fn with(self, factor: i64) -> Result<Self, Refusal>
        ensures { result ≡ judged_with self factor }
    {
        let limits = Range {
            low: if self.count == 0 { WHOLE } else { 0 },
            high: self.last,
        };
        need(
            self.count < ENTRIES && inside(factor, limits),
            Refusal::new(Kind::ProfileEntry, self.count),
        )?;
        Ok(Judged {
            count: self.count + 1,
            last: factor,
        })
    }

    // At the end of the entries: none is missing.
    pub fn end(self) -> Result<(), Refusal>
        ensures { result ≡ judged_end self }
    {
        need(
            self.count == ENTRIES,
            Refusal::new(Kind::ProfileEntry, self.count),
        )
    }
}

// A table that is lent.
pub fn check_profile(table: &[i64]) -> Result<(), Refusal>
    ensures { result ≡ profile_check table.now }
{
    let mut judged = Judged::none();
    for factor in table {
        judged = judged.with(*factor)?;
    }
    judged.end()
}
