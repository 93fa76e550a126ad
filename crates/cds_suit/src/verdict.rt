//! Verdicts, and the verdict of several.
ghost use Rattle.std.specs.Prelude.{◌≡◌, find, unwrap_or};
ghost use Rattle.std.specs.List.{list_any};
ghost use Rattle.cds_suit.specs.Verdict.{verdict_of, is_fail, is_undecided, overall_of};

use cds_base::Missing;

/// What a check of system suitability comes to.
#[derive(Clone, Copy, Debug, PartialEq, Eq)]
pub enum Verdict {
    /// The value keeps its limit.
    Pass,
    /// The value does not keep its limit.
    Fail,
    /// There is no value to compare, for this cause.
    Undecided(Missing),
}

impl Verdict {
    /// The verdict of a test that was made, or that could not be made for a missing value: Pass where the test holds,
    /// Fail where it does not, else Undecided with the cause. This project's own rule.
    pub fn from_test(test: Result<bool, Missing>) -> Verdict
        ensures { result ≡ verdict_of test }
    {
        match test {
            Ok(true) => Verdict::Pass,
            Ok(false) => Verdict::Fail,
            Err(cause) => Verdict::Undecided(cause),
        }
    }

    /// Whether this is Fail.
    pub(crate) fn is_fail(&self) -> bool
        ensures { result ≡ is_fail self.now }
    {
        match *self {
            Verdict::Fail => true,
            Verdict::Pass => false,
            Verdict::Undecided(_) => false,
        }
    }

    /// Whether this is Undecided, for whatever cause.
    pub(crate) fn is_undecided(&self) -> bool
        ensures { result ≡ is_undecided self.now }
    {
        match *self {
            Verdict::Undecided(_) => true,
            Verdict::Pass => false,
            Verdict::Fail => false,
        }
    }
}

/// The verdict of several: Fail where one of them is Fail, else Undecided with the cause of the first undecided one,
/// else Pass, as where there is none at all. It takes no memory. This project's own rule.
pub fn overall(verdicts: &[Verdict]) -> Verdict
    ensures { result ≡ overall_of verdicts.now }
{
    if has_fail(verdicts) {
        return Verdict::Fail;
    }
    first_undecided(verdicts)
}

/// Whether one of the verdicts is Fail.
fn has_fail(verdicts: &[Verdict]) -> bool
    ensures { result ≡ list_any is_fail verdicts.now }
{
    verdicts.iter().any(|verdict| verdict.is_fail())
}

/// The first undecided verdict, and Pass where there is none.
fn first_undecided(verdicts: &[Verdict]) -> Verdict
    ensures { result ≡ unwrap_or (find is_undecided verdicts.now) Verdict.Pass }
{
    for verdict in verdicts {
        if verdict.is_undecided() {
            return *verdict;
        }
    }
    Verdict::Pass
}
