ghost use Rattle.std.specs.Prelude.{◌≡◌, ◌<◌, ◌++◌, length, IfSome, OnOk};
ghost use Rattle.event_text.specs.LineTexts.{event_text, place_text, rest_text};
ghost use Rattle.span_lines.specs.Lines.{line_at, line_of};
ghost use Rattle.span_lines.specs.Mappings.{name_of};
ghost use Rattle.span_lines.specs.Moments.{message_with};
ghost use Rattle.span_lines.specs.inner.LentMappings.{IsWhole, mapping_lent};
ghost use Rattle.span_lines.specs.inner.SeenMoments.{moment_seen};
ghost use Rattle.span_names.specs.declared.piece.Piece.{Piece};
ghost use Rattle.thread_steps.specs.Steps.{call_of};
ghost use Rattle.thread_steps.specs.declared.step.Step.TheVariants.{Starts, Ends, Forks, Joins};

use crate::lent_mapping::LentMapping;
use crate::moments::{SeenMoment, lend, make_message, said_by, seen_moment};
use context_names::MachineNames;
use event_text::{push_name, push_place, push_rest};
use span_calls::Call;
use std::alloc::{AllocError, Global};
use thread_steps::Step;
use trace_types::Text;

/// Appends the beginning of a line: its request and its machine.
fn push_machine(
    machines: &MachineNames<'_>,
    request: &Text,
    machine: &str,
    text: &mut Vec<u8>,
) -> Result<(), AllocError>
    ensures { OnOk result (text.new.items
        ≡ text.old.items ++ place_text request.now (name_of machines.now machine.now)) }
{
    let request = request.as_str().as_bytes();
    match machines.name(machine) {
        Some(name) => push_place(text, request, name.as_str().as_bytes()),
        None => push_place(text, request, b""),
    }
}

/// Appends the rest of a line: its time, and the messages to a call and from one.
fn push_messages(
    alloc: Global,
    calls: &[Call<'_>],
    time: u64,
    to: Option<usize>,
    from: Option<usize>,
    sign: &str,
    text: &mut Vec<u8>,
) -> Result<(), AllocError>
    requires to { IfSome to (λ i. i < length calls.now) }
    requires from { IfSome from (λ i. i < length calls.now) }
    ensures { OnOk result (text.new.items ≡ text.old.items ++ rest_text time
        (message_with calls.now sign.now to) (message_with calls.now sign.now from)) }
{
    let send = make_message(alloc, calls, to, sign)?;
    let recv = make_message(alloc, calls, from, sign)?;
    push_rest(text, time, lend(&send), lend(&recv))
}

/// Appends the line of the start of a call.
fn push_start(
    alloc: Global,
    mapping: &LentMapping<'_, '_>,
    request: &Text,
    task: &Text,
    call: usize,
    text: &mut Vec<u8>,
) -> Result<(), AllocError>
    requires whole { IsWhole (mapping_lent mapping.now) }
    requires within { call < length mapping.now.calls.now }
    ensures { OnOk result (text.new.items ≡ text.old.items
        ++ event_text (line_of (mapping_lent mapping.now) request.now task.now (Starts call))) }
{
    let one = mapping.calls[call];
    let event = mapping.events.start(mapping.numbers[call]);
    let to = mapping.first_far[call];
    let from = said_by(mapping.first_far, one.caller, call);
    push_machine(mapping.machines, request, one.span.machine.as_str(), text)?;
    push_name(text, task.as_str().as_bytes(), event.as_str().as_bytes())?;
    push_messages(alloc, mapping.calls, one.span.start, to, from, ">", text)
}

/// Appends the line of the end of a call.
fn push_end(
    alloc: Global,
    mapping: &LentMapping<'_, '_>,
    request: &Text,
    task: &Text,
    call: usize,
    text: &mut Vec<u8>,
) -> Result<(), AllocError>
    requires whole { IsWhole (mapping_lent mapping.now) }
    requires within { call < length mapping.now.calls.now }
    ensures { OnOk result (text.new.items ≡ text.old.items
        ++ event_text (line_of (mapping_lent mapping.now) request.now task.now (Ends call))) }
{
    let one = mapping.calls[call];
    let event = mapping.events.end(mapping.numbers[call]);
    let to = said_by(mapping.last_far, one.caller, call);
    let from = mapping.last_far[call];
    push_machine(mapping.machines, request, one.span.machine.as_str(), text)?;
    push_name(text, task.as_str().as_bytes(), event.as_str().as_bytes())?;
    push_messages(alloc, mapping.calls, one.span.end, to, from, "<", text)
}

/// Appends the line of an event at a moment without messages.
fn push_seen(
    machines: &MachineNames<'_>,
    request: &Text,
    task: &Text,
    event: &Text,
    moment: SeenMoment<'_>,
    text: &mut Vec<u8>,
) -> Result<(), AllocError>
    ensures { OnOk result (text.new.items ≡ text.old.items ++ event_text
        (line_at machines.now request.now task.now event.now (moment_seen moment.entry))) }
{
    push_machine(machines, request, moment.machine, text)?;
    push_name(text, task.as_str().as_bytes(), event.as_str().as_bytes())?;
    push_rest(text, moment.time, None, None)
}

/// Appends the line of a fork of calls of which this is the first.
fn push_fork(
    alloc: Global,
    mapping: &LentMapping<'_, '_>,
    request: &Text,
    task: &Text,
    call: usize,
    text: &mut Vec<u8>,
) -> Result<(), AllocError>
    requires whole { IsWhole (mapping_lent mapping.now) }
    requires within { call < length mapping.now.calls.now }
    ensures { OnOk result (text.new.items ≡ text.old.items
        ++ event_text (line_of (mapping_lent mapping.now) request.now task.now (Forks call))) }
{
    let one = mapping.calls[call];
    let moment = seen_moment(mapping.calls, call, one.start, one.span.start);
    let event = mapping.events.fork(alloc, mapping.head(call))?;
    push_seen(mapping.machines, request, task, &event, moment, text)
}

/// Appends the line of a join of calls of which this one ends last.
fn push_join(
    alloc: Global,
    mapping: &LentMapping<'_, '_>,
    request: &Text,
    task: &Text,
    call: usize,
    text: &mut Vec<u8>,
) -> Result<(), AllocError>
    requires whole { IsWhole (mapping_lent mapping.now) }
    requires within { call < length mapping.now.calls.now }
    ensures { OnOk result ((piece : Piece) → text.new.items ≡ text.old.items ++ event_text
        (line_of (mapping_lent mapping.now) request.now task.now (Joins call piece))) }
{
    let one = mapping.calls[call];
    let moment = seen_moment(mapping.calls, call, one.end, one.span.end);
    let event = mapping.events.join(alloc, mapping.head(call))?;
    push_seen(mapping.machines, request, task, &event, moment, text)
}

/// Appends the line of a step of a thread in a task.
pub(crate) fn push_step(
    alloc: Global,
    mapping: &LentMapping<'_, '_>,
    request: &Text,
    task: &Text,
    step: Step,
    text: &mut Vec<u8>,
) -> Result<(), AllocError>
    requires whole { IsWhole (mapping_lent mapping.now) }
    requires within { call_of step < length mapping.now.calls.now }
    ensures { OnOk result (text.new.items ≡ text.old.items
        ++ event_text (line_of (mapping_lent mapping.now) request.now task.now step)) }
{
    match step {
        Step::Starts { call } => push_start(alloc, mapping, request, task, call, text),
        Step::Ends { call } => push_end(alloc, mapping, request, task, call, text),
        Step::Forks { call } => push_fork(alloc, mapping, request, task, call, text),
        Step::Joins { call, .. } => push_join(alloc, mapping, request, task, call, text),
    }
}
