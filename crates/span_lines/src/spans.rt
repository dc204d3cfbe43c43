ghost use Rattle.std.specs.Prelude.{◌≡◌, ◌<◌, List, ℕ, length, option_copied, IfErr, IfOk};
ghost use Rattle.call_contexts.specs.ContextOrder.{AreOrdered};
ghost use Rattle.span_calls.specs.Calls.{AreBefore, StartInOrder};
ghost use Rattle.span_lines.specs.Requests.{lines_by_request};
ghost use Rattle.span_lines.specs.SpanLines.{mapping_of};
ghost use Rattle.span_lines.specs.SpanTexts.{AreSpanLines};
ghost use Rattle.span_lines.specs.inner.FirstEntries.{AreFirst};
ghost use Rattle.span_lines.specs.inner.PlacedCalls.{AreNamedBy, AreNamesOf, ArePlaced};
ghost use Rattle.span_lines.specs.inner.PlacedCalls.{HaveLines, frames_in, placing_in};
ghost use Rattle.span_lines.specs.inner.PlacedCalls.{threading_of};
ghost use Rattle.span_lines.specs.inner.Printed.{ArePrinted};
ghost use Rattle.trace_types.specs.declared.event.Event.{Event};
ghost use Rattle.span_requests.specs.Faults.{IsFaultOf};
ghost use Rattle.span_types.specs.declared.span.Span.{Span};

use crate::SpanText;
use crate::input_names::{InputNames, name_input};
use crate::lent_mapping::LentMapping;
use crate::messages::find_messages;
use crate::naming::{ContextNames, make_names};
use crate::placed_calls::PlacedCalls;
use crate::printing::print_requests;
use crate::threading::thread_contexts;
use call_contexts::{find_contexts, order_contexts};
use context_forks::calls_below;
use context_names::{GroupNumbers, number_groups};
use span_calls::{Call, find_calls};
use span_requests::{SpanFault, find_requests};
use span_types::Span;
use std::alloc::{AllocError, Global};
use thread_steps::{Forking, make_steps};

/// Appends the lines of the requests of calls, by the names of their contexts and groups, and gives
/// how many requests are long.
fn print_named(
    alloc: Global,
    spans: &InputNames<'_>,
    placed: &PlacedCalls<'_, '_>,
    names: &ContextNames,
    groups: &GroupNumbers,
    text: &mut Vec<u8>,
) -> Result<usize, AllocError>
    requires placed { ArePlaced placed.now }
    requires named { AreNamedBy placed.now names.now groups.now }
    ensures { IfOk result (λ long. (order : List ℕ) (below : List (List ℕ)) (entries : List Span)
        → AreNamesOf placed.now order below names.now groups.now → AreFirst entries spans.now.first
        → ArePrinted (lines_by_request (mapping_of placed.now.calls.now
        (placing_in placed.now order below) (threading_of placed.now.threads.now)
        spans.now.machines) entries) text.old.items text.new.items long) }
{
    let contexts = placed.contexts;
    let threads = placed.threads;
    let forking = Forking {
        numbers: &contexts.numbers,
        forked: &threads.forked,
        groups: &threads.groups,
    };
    let steps = make_steps(alloc, placed.calls, placed.below, forking, &groups.numbers)?;
    let messages = find_messages(alloc, placed.calls, placed.below)?;
    let mapping = LentMapping {
        calls: placed.calls,
        numbers: &contexts.numbers,
        steps: &steps,
        first_far: &messages.first_far,
        last_far: &messages.last_far,
        threads: &threads.threads,
        events: &names.events,
        groups: &threads.groups,
        heads: &groups.heads,
        tasks: &names.tasks,
        machines: &spans.machines,
    };
    print_requests(alloc, &mapping, &spans.first, text)
}

/// Appends the lines of the requests of calls with their contexts and threads, and gives how many
/// requests are long.
fn print_placed(
    alloc: Global,
    spans: &InputNames<'_>,
    placed: &PlacedCalls<'_, '_>,
    text: &mut Vec<u8>,
) -> Result<usize, AllocError>
    requires { ArePlaced placed.now }
    ensures { IfOk result (λ long. (entries : List Span) → AreFirst entries spans.now.first
        → (order : List ℕ) × (below : List (List ℕ)) × AreOrdered (frames_in placed.now) order below
        × ArePrinted (lines_by_request (mapping_of placed.now.calls.now
        (placing_in placed.now order below) (threading_of placed.now.threads.now)
        spans.now.machines) entries) text.old.items text.new.items long) }
{
    let contexts = &placed.contexts.contexts;
    let threads = placed.threads;
    let order = order_contexts(alloc, contexts)?;
    let names = make_names(alloc, contexts, &order.order, &threads.threads)?;
    let groups = number_groups(
        alloc,
        contexts,
        &order,
        &threads.threads,
        &threads.forked,
        &threads.groups,
    )?;
    print_named(alloc, spans, placed, &names, &groups, text)
}

/// Appends the lines of the requests of calls, which may overlap by a grace in nanoseconds, and
/// gives how many requests are long.
fn print_all(
    alloc: Global,
    spans: &InputNames<'_>,
    calls: &[Call<'_>],
    grace: u64,
    text: &mut Vec<u8>,
) -> Result<usize, AllocError>
    requires before { AreBefore calls.now }
    requires rise { StartInOrder calls.now }
    ensures { IfOk result (λ long. (entries : List Span) → AreFirst entries spans.now.first
        → (requests : List (List Event))
        × HaveLines calls.now grace spans.now.machines entries requests
        × ArePrinted requests text.old.items text.new.items long) }
{
    let below = calls_below(alloc, calls)?;
    let contexts = find_contexts(alloc, calls)?;
    let threads = thread_contexts(alloc, calls, &below, &contexts, grace)?;
    let placed = PlacedCalls {
        calls,
        below: &below,
        contexts: &contexts,
        threads: &threads,
    };
    print_placed(alloc, spans, &placed, text)
}

/// Makes the text of the event lines of spans: of their requests, or of those whose entry has this
/// service and name, with a space between them. Calls of one caller may overlap by a grace, in
/// nanoseconds, and still run in its thread. A span that stands twice counts once. The errors are
/// those of the requests of the spans, and out of memory.
pub fn print_spans(
    alloc: Global,
    spans: &[Span],
    grace: u64,
    entry: Option<&str>,
) -> Result<SpanText, SpanFault>
    requires { length spans.now < u32.MAX }
    ensures lines { IfOk result (λ t. AreSpanLines grace (option_copied entry.entry) spans.now t) }
    ensures fault { IfErr result (λ fault. IsFaultOf spans.now fault) }
{
    let requests = find_requests(alloc, spans)?;
    let names = name_input(alloc, &requests.spans, &requests.entries)?;
    let calls = find_calls(alloc, &requests, entry)?;
    let mut text = Vec::new(alloc);
    let long = print_all(alloc, &names, &calls, grace, &mut text)?;
    Ok(SpanText {
        text,
        missing: requests.missing,
        long,
    })
}
