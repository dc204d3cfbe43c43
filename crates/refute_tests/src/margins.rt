ghost use Rattle.refute_tests.specs.inner.Hits.{IsEndLimit, IsStartLimit};

use trace_types::NamedSegment;

/// Gives the latest end that another segment can have without this one starting early: its start
/// plus the grace in nanoseconds, saturating. Not inlined: the optimizer would test in
/// each turn of the caller's loop whether the sum overflowed.
#[inline(never)]
#[tactic(auto, using(crate::proofs::TimeLemmas::ends_late))]
pub(crate) fn end_limit(segment: &NamedSegment, grace: u64) -> i64
    ensures { IsEndLimit result grace segment.now }
{
    segment.start.saturating_add_unsigned(grace)
}

/// Gives the earliest start that another segment can have without being early for this one: its end
/// minus the grace in nanoseconds, saturating. Not inlined, as `end_limit`.
#[inline(never)]
#[tactic(auto, using(crate::proofs::TimeLemmas::starts_soon))]
pub(crate) fn start_limit(segment: &NamedSegment, grace: u64) -> i64
    ensures { IsStartLimit result grace segment.now }
{
    segment.end.saturating_sub_unsigned(grace)
}
