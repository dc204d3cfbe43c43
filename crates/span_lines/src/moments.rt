ghost use Rattle.std.specs.Prelude.{◌≡◌, ◌<◌, ◌++◌, length, string_bytes, IfOk, IfSome};
ghost use Rattle.std.specs.Option.{option_copied, option_map};
ghost use Rattle.span_calls.specs.Calls.{AreBefore};
ghost use Rattle.span_lines.specs.Messages.{call_span, caller_of_call};
ghost use Rattle.span_lines.specs.Moments.{if_said, message_with, moment_on, moment_within};
ghost use Rattle.span_lines.specs.Moments.{said_by};
ghost use Rattle.span_lines.specs.Moments.{seen_moment};
ghost use Rattle.span_lines.specs.inner.SeenMoments.{moment_seen};

use span_calls::Call;
use span_types::Span;
use std::alloc::{AllocError, Global};

/// When and where a caller forks or joins calls.
#[derive(Clone, Copy, Debug)]
pub(crate) struct SeenMoment<'a> {
    pub(crate) machine: &'a str,
    pub(crate) time: u64,
}

/// Gives a time on the machine of a span.
fn moment_on(span: &Span, time: u64) -> SeenMoment<'_>
    ensures { moment_seen result ≡ moment_on span.now time }
{
    SeenMoment {
        machine: span.machine.as_str(),
        time,
    }
}

/// Gives the moment that a caller sees at a call: the call's own, or the caller's start or end
/// where it lies outside of these.
fn moment_within<'a>(caller: &'a Span, call: &'a Span, seen: u64, own: u64) -> SeenMoment<'a>
    ensures { moment_seen result ≡ moment_within caller.now call.now seen own }
{
    if seen < caller.start {
        moment_on(caller, caller.start)
    } else if caller.end < seen {
        moment_on(caller, caller.end)
    } else {
        moment_on(call, own)
    }
}

/// Gives the moment that the caller of a call sees at it, if it has a caller: the call's own, or
/// the caller's start or end where it lies outside of these.
pub(crate) fn seen_moment<'a>(
    calls: &[Call<'a>],
    call: usize,
    seen: u64,
    own: u64,
) -> SeenMoment<'a>
    requires before { AreBefore calls.now }
    requires within { call < length calls.now }
    ensures { moment_seen result
        ≡ seen_moment calls.now (caller_of_call calls.now call) call seen own }
{
    let one = calls[call];
    match one.caller {
        Some(caller) => moment_within(calls[caller].span, one.span, seen, own),
        None => moment_on(one.span, own),
    }
}

/// Gives the call, if this one is it.
fn if_said(said: Option<usize>, call: usize) -> Option<usize>
    ensures { result ≡ if_said said call }
{
    match said {
        Some(said) => { if said == call { Some(call) } else { None } }
        None => None,
    }
}

/// Gives the call, if its caller names it among these of each call.
pub(crate) fn said_by(far: &[Option<usize>], caller: Option<usize>, call: usize) -> Option<usize>
    requires { IfSome caller (λ c. c < length far.now) }
    ensures { result ≡ said_by far.now caller call }
{
    match caller {
        Some(caller) => if_said(far[caller], call),
        None => None,
    }
}

/// Makes the message to a call, or from it: its id with a sign for the way.
fn message_of(alloc: Global, span: &Span, sign: &str) -> Result<String, AllocError>
    ensures { IfOk result (λ m. string_bytes m ≡ span.now.id ++ sign.now) }
{
    let mut message = String::from_str(alloc, span.id.as_str())?;
    message.push_str(sign)?;
    Ok(message)
}

/// Makes the message to a call, or from it, if there is one. The only error is out of memory.
pub(crate) fn make_message(
    alloc: Global,
    calls: &[Call<'_>],
    call: Option<usize>,
    sign: &str,
) -> Result<Option<String>, AllocError>
    requires { IfSome call (λ i. i < length calls.now) }
    ensures { IfOk result (λ m. option_map string_bytes m ≡ message_with calls.now sign.now call) }
{
    match call {
        Some(call) => Ok(Some(message_of(alloc, calls[call].span, sign)?)),
        None => Ok(None),
    }
}

/// Lends a message, if there is one.
pub(crate) fn lend(message: &Option<String>) -> Option<&[u8]>
    ensures { option_copied result ≡ option_map string_bytes message.now }
{
    match message {
        Some(message) => Some(message.as_str().as_bytes()),
        None => None,
    }
}
