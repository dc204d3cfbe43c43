ghost use Rattle.std.specs.Prelude.{◌≡◌, max, min, MatchOption, []};
ghost use Rattle.trace_quality.specs.Extremes.{AreExtremes};

use crate::{Times, TraceFacts};

/// Widens the times from the least to the greatest to those of another trace.
fn widen(times: Times, other: Times) -> Times
    ensures least { result.least ≡ min times.least other.least }
    ensures greatest { result.greatest ≡ max times.greatest other.greatest }
{
    Times {
        least: times.least.min(other.least),
        greatest: times.greatest.max(other.greatest),
    }
}

/// Finds the least and the greatest time of all events of traces with these facts, where there is a
/// trace.
pub fn find_extremes(facts: &[TraceFacts]) -> Option<Times>
    ensures { MatchOption result (facts.now ≡ []) (AreExtremes facts.now) }
{
    let first = facts.first()?;
    let mut times = first.times;
    'facts: for index in 1..facts.len() {
        times = widen(times, facts[index].times);
    }
    Some(times)
}
