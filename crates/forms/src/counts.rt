//! Numbers that count something.

ghost use Rattle.std.specs.Prelude.{◌≡◌};
ghost use Rattle.forms.specs.Forms.{count as count_of, between, below};
ghost use Rattle.forms.specs.Outcome.{in_range};

use crate::fault::Fault;

/// A number as a count, where it lies within `low` to `high`.
pub fn count_within(n: i32, low: usize, high: usize) -> Result<usize, Fault>
    ensures { result ≡ in_range (between low high n) (count_of n) }
{
    match usize::try_from(n) {
        Ok(count) if (low..=high).contains(&count) => Ok(count),
        _ => Err(Fault::Range),
    }
}

/// A number as a count, where it lies within 0 to one below `limit`.
// Two functions: over the trait of both kinds of ranges the proofs of the callers do not close, and below a limit of 0 there is
// no range with its ends.
pub fn count_below(n: i32, limit: usize) -> Result<usize, Fault>
    ensures { result ≡ in_range (below limit n) (count_of n) }
{
    match usize::try_from(n) {
        Ok(count) if count < limit => Ok(count),
        _ => Err(Fault::Range),
    }
}
