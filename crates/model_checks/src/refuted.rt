ghost use Rattle.std.specs.Prelude.{◌≡◌, ◌≢◌, ◌↔◌, ◌&&◌, ◌||◌, ◌<◌, ◌+◌, IsTrue, All, Contains};
ghost use Rattle.std.specs.Prelude.{MatchOption, IfOk, length, take};
ghost use Rattle.trace_types.specs.declared.trace.Trace as traces;
ghost use Rattle.trace_types.specs.declared.segment.Segment.{Segment};
ghost use Rattle.trace_types.specs.Parts.{by_text};
ghost use Rattle.trace_types.specs.Refuting.{StartsEarly};
ghost use Rattle.trace_types.specs.Segments.{name_of};
ghost use Rattle.model_checks.specs.inner.Answers.{IsTraceAnswer, AreAnswers};

use crate::distinct_names::is_name_of;
use std::alloc::{AllocError, Global};
use trace_types::{NameText, Segment, Trace};

/// The relations of two names that are refuted.
#[derive(Clone, Copy)]
pub(crate) struct Refuted {
    /// That they are apart, in no trace together.
    pub apart: bool,
    /// That the first happens before the second.
    pub before: bool,
    /// That the second happens before the first.
    pub after: bool,
    /// That they are mutually exclusive.
    pub exclusive: bool,
}

/// That no relation is refuted.
const NOTHING: Refuted = Refuted {
    apart: false,
    before: false,
    after: false,
    exclusive: false,
};

/// Finds the trace's segment of this name.
fn segment_of<'t>(trace: &'t Trace, name: &NameText) -> Option<&'t Segment>
    ensures { MatchOption result
        (All (λ (s : Segment). name_of s ≢ name.now) trace.now.segments)
        (λ s. Contains trace.now.segments s.now × (name_of s.now ≡ name.now)) }
{
    for segment in trace.segments.items() {
        if is_name_of(name, segment) {
            return Some(segment);
        }
    }
    None
}

/// Tells what two segments refute of their names.
fn refuted_between(s: &Segment, t: &Segment) -> Refuted
    ensures apart { IsTrue result.apart }
    ensures before { (trace : traces.Trace)
        → IsTrue result.before ↔ StartsEarly by_text trace t.now s.now }
    ensures after { (trace : traces.Trace)
        → IsTrue result.after ↔ StartsEarly by_text trace s.now t.now }
    ensures exclusive { result.exclusive ≡ (result.after && result.before) }
{
    let before = t.start < s.end;
    let after = s.start < t.end;
    Refuted {
        apart: true,
        before,
        after,
        exclusive: after && before,
    }
}

/// Tells what one trace refutes of two names, given its segment of the first name, if it has one.
fn refuted_by(trace: &Trace, found: Option<&Segment>, a: &NameText, b: &NameText) -> Refuted
    requires { MatchOption found
        (All (λ (s : Segment). name_of s ≢ a.now) trace.now.segments)
        (λ s. Contains trace.now.segments s.now × (name_of s.now ≡ a.now)) }
    ensures { IsTraceAnswer trace.now a.now b.now result }
{
    let Some(s) = found else {
        return NOTHING;
    };
    match segment_of(trace, b) {
        Some(t) => refuted_between(s, t),
        None => NOTHING,
    }
}

/// Joins two answers: what either says is refuted.
fn either(a: Refuted, b: Refuted) -> Refuted
    ensures apart { result.apart ≡ (a.apart || b.apart) }
    ensures before { result.before ≡ (a.before || b.before) }
    ensures after { result.after ≡ (a.after || b.after) }
    ensures exclusive { result.exclusive ≡ (a.exclusive || b.exclusive) }
{
    Refuted {
        apart: a.apart | b.apart,
        before: a.before | b.before,
        after: a.after | b.after,
        exclusive: a.exclusive | b.exclusive,
    }
}

/// Adds to the row what one more trace refutes of the first name and each of the names.
fn add_trace(traces: &[Trace], at: usize, first: &NameText, names: &[NameText], row: &mut [Refuted])
    requires within { at < length traces.now }
    requires told { AreAnswers (take at traces.now) first.now names.now row.old }
    ensures { AreAnswers (take (at + 1) traces.now) first.now names.now row.new }
{
    let trace = &traces[at];
    let found = segment_of(trace, first);
    for place in 0..names.len() {
        row[place] = either(row[place], refuted_by(trace, found, first, &names[place]));
    }
}

/// Tells what the traces refute of the first name and each of the names, by index of the latter.
pub(crate) fn refuted_row(
    alloc: Global,
    traces: &[Trace],
    first: &NameText,
    names: &[NameText],
) -> Result<Vec<Refuted>, AllocError>
    ensures { IfOk result (λ row. AreAnswers traces.now first.now names.now row.items) }
{
    let mut row = vec![in alloc; NOTHING; names.len()]?;
    for at in 0..traces.len() {
        add_trace(traces, at, first, names, &mut row);
    }
    Ok(row)
}
