ghost use Rattle.std.specs.Prelude.{◌≡◌, ◌≢◌, ◌↔◌, true, All, Contains, MatchOption};
ghost use Rattle.counterexamples.specs.inner.Named.{AreOf, HasNone, HasNotBoth, IsOf};
ghost use Rattle.trace_types.specs.Parts.{by_number};
ghost use Rattle.trace_types.specs.Refuting.{RefutesApart, RefutesBefore, RefutesExclusive};

use refute_tests::starts_early;
use trace_types::{NamedSegment, NamedTrace};

/// Finds the trace's segment with this name.
fn segment_of(trace: &NamedTrace, name: u32) -> Option<&NamedSegment>
    ensures { MatchOption result (HasNone trace.now name) (λ s. IsOf trace.now name s.now) }
{
    'segments: for segment in trace.segments.items() {
        if segment.name == name {
            return Some(segment);
        }
    }
    None
}

/// Finds the trace's segments with these two names, where it has both.
fn segments_of(
    trace: &NamedTrace,
    first: u32,
    second: u32,
) -> Option<(&NamedSegment, &NamedSegment)>
    ensures { MatchOption result (HasNotBoth trace.now first second)
        (λ both. AreOf trace.now first second both.0.now both.1.now) }
{
    let one = segment_of(trace, first)?;
    let other = segment_of(trace, second)?;
    Some((one, other))
}

/// Tells whether the trace refutes that the first name happens before the second.
pub(crate) fn refutes_before(trace: &NamedTrace, first: u32, second: u32) -> bool
    ensures { (result ≡ true) ↔ RefutesBefore by_number first second trace.now }
{
    match segments_of(trace, first, second) {
        Some((s, t)) => starts_early(s, t, trace.grace),
        None => false,
    }
}

/// Tells whether the trace refutes that the two names are mutually exclusive.
pub(crate) fn refutes_exclusive(trace: &NamedTrace, low: u32, high: u32) -> bool
    ensures { (result ≡ true) ↔ RefutesExclusive by_number low high trace.now }
{
    match segments_of(trace, low, high) {
        Some((s, t)) => starts_early(t, s, trace.grace) && starts_early(s, t, trace.grace),
        None => false,
    }
}

/// Tells whether the trace refutes that no trace has both names.
pub(crate) fn refutes_apart(trace: &NamedTrace, low: u32, high: u32) -> bool
    ensures { (result ≡ true) ↔ RefutesApart by_number low high trace.now }
{
    segments_of(trace, low, high).is_some()
}
