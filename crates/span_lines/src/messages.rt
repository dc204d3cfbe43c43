ghost use Rattle.std.specs.Prelude.{◌≡◌, ◌<◌, ◌++◌, ◌∷◌, [], List, ℕ, All, Some, filter};
ghost use Rattle.std.specs.Prelude.{length, slice_get, IfOk, IfSome};
ghost use Rattle.context_forks.specs.Forks.{calls_below};
ghost use Rattle.context_forks.specs.Partners.{last_to_end};
ghost use Rattle.span_calls.specs.Calls.{AreBefore};
ghost use Rattle.span_calls.specs.Seen.{are_apart};
ghost use Rattle.span_lines.specs.Messages.{all_first_far, all_last_far, call_span, far_among};
ghost use Rattle.span_lines.specs.Messages.{sends_calls};
ghost use Rattle.span_lines.specs.inner.FarCalls.{AreFar};
ghost use Rattle.span_lines.specs.inner.LentMappings.{AreAmong};

use call_trees::NumberList;
use span_calls::Call;
use span_types::SpanKind;
use std::alloc::{AllocError, Global};

/// Of the calls of a call that go to other machines by messages the first one, and the one that
/// ends last; of several the first.
#[derive(Clone, Copy, Debug)]
pub(crate) struct FarCalls {
    pub(crate) first: Option<usize>,
    pub(crate) last: Option<usize>,
}

/// For each call the first of its calls that go to other machines by messages, and the one of them
/// that ends last.
#[derive(Debug, Drop)]
pub(crate) struct Messages {
    pub(crate) first_far: Vec<Option<usize>>,
    pub(crate) last_far: Vec<Option<usize>>,
}

/// Tells whether a span of this kind sends a message where it calls.
fn sends_calls(kind: SpanKind) -> bool
    ensures { result ≡ sends_calls kind }
{
    matches!(kind, SpanKind::Client | SpanKind::Unspecified)
}

/// Tells whether two calls are on different machines.
fn are_apart(calls: &[Call<'_>], one: usize, other: usize) -> bool
    requires one { one < length calls.now }
    requires other { other < length calls.now }
    ensures { result ≡ are_apart (call_span calls.now one) (call_span calls.now other) }
{
    let one = calls[one].span;
    let other = calls[other].span;
    one.machine != other.machine
}

/// Gives which of two calls ends last; of several the first.
fn later_of(calls: &[Call<'_>], last: Option<usize>, call: usize) -> usize
    requires last { IfSome last (λ l. l < length calls.now) }
    requires call { call < length calls.now }
    ensures later { (list : List ℕ) → last ≡ last_to_end calls.now list
        → Some result ≡ last_to_end calls.now (list ++ call ∷ []) }
    ensures within { result < length calls.now }
{
    match last {
        Some(last) => {
            if calls[last].end < calls[call].end {
                call
            } else {
                last
            }
        }
        None => call,
    }
}

/// Gives the first of a list that goes on with a call.
fn first_with(first: Option<usize>, call: usize) -> Option<usize>
    ensures first { (list : List ℕ) → first ≡ slice_get list 0
        → result ≡ slice_get (list ++ call ∷ []) 0 }
    ensures within { (count : ℕ) → IfSome first (λ f. f < count) → call < count
        → IfSome result (λ f. f < count) }
{
    match first {
        Some(first) => Some(first),
        None => Some(call),
    }
}

/// Finds the calls of a call that go to other machines, among these.
fn find_apart(calls: &[Call<'_>], caller: usize, below: &[usize]) -> FarCalls
    requires caller { caller < length calls.now }
    requires within { All (λ j. j < length calls.now) below.now }
    ensures far { AreFar calls.now (filter (λ j.
        are_apart (call_span calls.now caller) (call_span calls.now j)) below.now) result }
    ensures first { IfSome result.first (λ j. j < length calls.now) }
    ensures last { IfSome result.last (λ j. j < length calls.now) }
{
    let mut far = FarCalls {
        first: None,
        last: None,
    };
    for call in below {
        if are_apart(calls, caller, *call) {
            far = FarCalls {
                first: first_with(far.first, *call),
                last: Some(later_of(calls, far.last, *call)),
            };
        }
    }
    far
}

/// Finds the calls of a call that go to other machines by messages, among these.
fn find_far(calls: &[Call<'_>], caller: usize, below: &[usize]) -> FarCalls
    requires caller { caller < length calls.now }
    requires within { All (λ j. j < length calls.now) below.now }
    ensures far { AreFar calls.now (far_among calls.now caller below.now) result }
    ensures first { IfSome result.first (λ j. j < length calls.now) }
    ensures last { IfSome result.last (λ j. j < length calls.now) }
{
    if sends_calls(calls[caller].span.kind) {
        find_apart(calls, caller, below)
    } else {
        FarCalls {
            first: None,
            last: None,
        }
    }
}

/// Finds the messages of calls. The only error is out of memory.
pub(crate) fn find_messages(
    alloc: Global,
    calls: &[Call<'_>],
    below: &[NumberList],
) -> Result<Messages, AllocError>
    requires before { AreBefore calls.now }
    requires below { below.now ≡ calls_below calls.now }
    ensures first { IfOk result (λ m. m.first_far.items ≡ all_first_far calls.now below.now) }
    ensures last { IfOk result (λ m. m.last_far.items ≡ all_last_far calls.now below.now) }
    ensures first_among { IfOk result (λ m. AreAmong (length calls.now) m.first_far.items) }
    ensures last_among { IfOk result (λ m. AreAmong (length calls.now) m.last_far.items) }
{
    let mut first_far = Vec::with_capacity(alloc, calls.len())?;
    let mut last_far = Vec::with_capacity(alloc, calls.len())?;
    for at in 0..calls.len() {
        let far = find_far(calls, at, below[at].items());
        first_far.push(far.first)?;
        last_far.push(far.last)?;
    }
    Ok(Messages {
        first_far,
        last_far,
    })
}
