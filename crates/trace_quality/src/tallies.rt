ghost use Rattle.std.specs.Prelude.{◌≡◌, ◌<◌, ◌+◌, ◌^◌, ℕ, IfSome, length, position, slice_get, Some};
ghost use Rattle.trace_quality.specs.Measures.{counted, counted_of};
ghost use Rattle.trace_quality.specs.Tallies.{IsTally};
ghost use Rattle.trace_quality.specs.inner.Adding.{first_or};

use crate::measure::{Share, share_of};
use crate::{Measure, TraceFacts};

/// How many, of how many, and the index of the first trace that counts.
#[derive(Clone, Copy, Debug, PartialEq, Eq)]
pub struct Tally {
    /// How many.
    pub count: u64,
    /// Of how many.
    pub of: u64,
    /// The index of the first trace that counts any.
    pub first: Option<usize>,
}

/// Adds what the trace with this index counts.
pub(crate) fn add_share(tally: Tally, index: usize, share: Share) -> Tally
    requires count { tally.count + share.count < 2 ^ 64 }
    requires of { tally.of + share.of < 2 ^ 64 }
    ensures count { result.count ≡ tally.count + share.count }
    ensures of { result.of ≡ tally.of + share.of }
    ensures first { result.first ≡ first_or tally.first index share.count }
{
    let first = match tally.first {
        Some(first) => Some(first),
        None => { if share.count > 0 { Some(index) } else { None } }
    };
    Tally {
        count: tally.count + u64::from(share.count),
        of: tally.of + u64::from(share.of),
        first,
    }
}

/// Adds up what a measure counts in traces with these facts.
pub fn add_up(measure: Measure, facts: &[TraceFacts]) -> Tally
    requires { length facts.now < 2 ^ 32 }
    ensures tally { IsTally (counted measure) (counted_of measure) facts.now result }
    ensures within { IfSome result.first (λ index. index < length facts.now) }
{
    let mut sum = Tally {
        count: 0,
        of: 0,
        first: None,
    };
    'facts: for index in 0..facts.len() {
        sum = add_share(sum, index, share_of(measure, &facts[index]));
    }
    sum
}
