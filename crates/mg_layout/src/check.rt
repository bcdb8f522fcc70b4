//! What is found in a part against the range in which it is to be.
ghost use Rattle.std.specs.Prelude.{◌≡◌, None, Some, MatchResult, find, map, true};
ghost use Rattle.mg_defs.specs.Heads.{is_wrong, exactly, within};
ghost use Rattle.mg_layout.specs.HeadAnswers.{TellsOf, check_of};

use mg_dev::{Bad, Part};

/// What is found at a place of the head, and the range in which it is to be.
#[derive(Clone, Copy, Debug, PartialEq, Eq)]
pub struct Check {
    pub at: u64,
    pub low: u64,
    pub high: u64,
    pub found: u64,
}

impl Check {
    pub(crate) fn exactly(at: u64, wanted: u64, found: u64) -> Self
        ensures { check_of result ≡ exactly at wanted found }
    {
        Check {
            at,
            low: wanted,
            high: wanted,
            found,
        }
    }

    pub(crate) fn within(at: u64, low: u64, high: u64, found: u64) -> Self
        ensures { check_of result ≡ within at low high found }
    {
        Check {
            at,
            low,
            high,
            found,
        }
    }

    /// Whether the number is outside its range.
    fn is_wrong(&self) -> bool
        ensures { result ≡ is_wrong (check_of self.now) }
    {
        self.found < self.low || self.high < self.found
    }

    /// The refusal of a number outside its range.
    pub(crate) fn bad(&self) -> Bad
        requires { is_wrong (check_of self.now) ≡ true }
        ensures { TellsOf result (Some (check_of self.now)) }
    {
        Bad {
            part: Part::Head,
            at: self.at,
            low: self.low,
            high: self.high,
            found: self.found,
        }
    }
}

/// Refuses the first number that is outside its range.
pub(crate) fn pass_all(checks: &[Check]) -> Result<(), Bad>
    ensures { MatchResult result (λ _. find is_wrong (map check_of checks.now) ≡ None)
        (λ bad. TellsOf bad (find is_wrong (map check_of checks.now))) }
{
    for check in checks {
        if check.is_wrong() {
            return Err(check.bad());
        }
    }
    Ok(())
}
