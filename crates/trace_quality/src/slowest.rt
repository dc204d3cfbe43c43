ghost use Rattle.std.specs.Prelude.{◌≡◌, ◌<◌, ◌^◌, ◌&&◌, ℕ, IfOk, IfSome, length, is_some, map};
ghost use Rattle.std.specs.Prelude.{IsSorted, IsPermutation, nat_le};
ghost use Rattle.std.specs.Ordering.{nat_cmp};
ghost use Rattle.trace_quality.specs.Measures.{one_if};
ghost use Rattle.trace_quality.specs.Slowest.{counts_slow, counts_slow_refused, is_slow, spans_of};
ghost use Rattle.trace_quality.specs.Tallies.{IsTally};
ghost use Rattle.trace_quality.specs.Times.{span_of};
ghost use Rattle.trace_quality.specs.declared.trace_facts.TraceFacts.{TraceFacts};

use crate::measure::{Share, one_if, span_of};
use crate::tallies::add_share;
use crate::{Tally, TraceFacts};
use std::alloc::{AllocError, Global};

/// Lists how long the traces lasted, in rising order.
fn sort_spans(alloc: Global, facts: &[TraceFacts]) -> Result<Vec<u64>, AllocError>
    ensures sorted { IfOk result (λ spans. IsSorted nat_cmp spans.items) }
    ensures same { IfOk result (λ spans. IsPermutation (spans_of facts.now) spans.items) }
{
    let mut spans = Vec::with_capacity(alloc, facts.len())?;
    'facts: for index in 0..facts.len() {
        spans.push(span_of(facts[index].times))?;
    }
    spans.sort_unstable();
    Ok(spans)
}

/// Finds how long a trace lasts at least that fewer than one in twenty outlast, in nanoseconds.
fn find_limit(alloc: Global, facts: &[TraceFacts]) -> Result<u64, AllocError>
    ensures { IfOk result (λ limit. (f : TraceFacts) → 0 < length facts.now
        → is_slow facts.now f ≡ nat_le limit (span_of f.times)) }
{
    let spans = sort_spans(alloc, facts)?;
    if spans.is_empty() {
        return Ok(0);
    }
    Ok(spans[spans.len() - 1 - (spans.len() - 1) / 20])
}

/// Counts a trace where it lasts at least so long, and also where it then is refused.
fn slow_share(limit: u64, facts: &TraceFacts) -> Share
    ensures count { result.count
        ≡ one_if (nat_le limit (span_of facts.now.times) && is_some facts.now.verdict.fault) }
    ensures of { result.of ≡ one_if (nat_le limit (span_of facts.now.times)) }
{
    let is_slow = limit <= span_of(facts.times);
    Share {
        count: one_if(is_slow && facts.verdict.fault.is_some()),
        of: one_if(is_slow),
    }
}

/// Counts how many of the slowest traces are refused, of how many: of those that fewer than one in
/// twenty outlast, by their events' own clocks. The only error is out of memory.
pub fn tally_slowest(alloc: Global, facts: &[TraceFacts]) -> Result<Tally, AllocError>
    requires { length facts.now < 2 ^ 32 }
    ensures tally { IfOk result (IsTally (counts_slow_refused facts.now) (counts_slow facts.now)
        facts.now) }
    ensures within { IfOk result (λ t. IfSome t.first (λ index. index < length facts.now)) }
{
    let limit = find_limit(alloc, facts)?;
    let mut sum = Tally {
        count: 0,
        of: 0,
        first: None,
    };
    'facts: for index in 0..facts.len() {
        sum = add_share(sum, index, slow_share(limit, &facts[index]));
    }
    Ok(sum)
}
