ghost use Rattle.std.specs.Prelude.{◌≡◌, ◌<◌, All, length, IfOk, OnOk};
ghost use Rattle.span_calls.specs.Calls.{AreBefore};

use context_forks::calls_below;
use span_calls::Call;
use span_types::{Span, SpanKind};
use std::alloc::{AllocError, Global};
use thread_steps::{Forking, Step, make_steps};
use trace_types::Text;

/// A call: its caller, when it starts and ends, and whether it is forked.
#[derive(Clone, Copy, Debug)]
pub(crate) struct Row {
    pub(crate) caller: Option<usize>,
    pub(crate) start: u64,
    pub(crate) end: u64,
    pub(crate) forked: bool,
}

/// Makes the span that all calls share.
fn make_span(alloc: Global) -> Result<Span, AllocError> {
    Ok(Span {
        trace: Text::new(alloc, "t")?,
        id: Text::new(alloc, "a")?,
        parent: None,
        service: Text::new(alloc, "s")?,
        machine: Text::new(alloc, "h")?,
        name: Text::new(alloc, "n")?,
        kind: SpanKind::Internal,
        start: 0,
        end: 0,
    })
}

/// Appends a call, without its caller where that one does not stand before it.
fn add_call<'a>(calls: &mut Vec<Call<'a>>, span: &'a Span, row: Row) -> Result<(), AllocError>
    requires { AreBefore calls.old.items }
    ensures { OnOk result (AreBefore calls.new.items) }
{
    let caller = match row.caller {
        Some(caller) if caller < calls.len() => Some(caller),
        _ => None,
    };
    calls.push(Call {
        span,
        caller,
        start: row.start,
        end: row.end,
    })?;
    Ok(())
}

/// Makes the calls of rows.
fn list_calls<'a>(alloc: Global, span: &'a Span, rows: &[Row]) -> Result<Vec<Call<'a>>, AllocError>
    ensures { IfOk result (λ calls. AreBefore calls.items) }
{
    let mut calls = Vec::new(alloc);
    'rows: for row in rows {
        add_call(&mut calls, span, *row)?;
    }
    Ok(calls)
}

/// Numbers contexts: each call has its own.
fn number_contexts(alloc: Global, count: usize) -> Result<Vec<usize>, AllocError>
    ensures all { IfOk result (λ numbers. length numbers.items ≡ count) }
    ensures within { IfOk result (λ numbers. All (λ x. x < count) numbers.items) }
{
    let mut numbers = Vec::new(alloc);
    'contexts: for at in 0..count {
        numbers.push(at)?;
    }
    Ok(numbers)
}

/// Gives the one group of all contexts.
fn group_contexts(alloc: Global, count: usize) -> Result<Vec<usize>, AllocError>
    ensures all { IfOk result (λ groups. length groups.items ≡ count) }
    ensures within { IfOk result (λ groups. All (λ g. g < count) groups.items) }
{
    let mut groups = Vec::new(alloc);
    'contexts: for at in 0..count {
        groups.push(0)?;
    }
    Ok(groups)
}

/// Tells which contexts are forked.
fn mark_forked(alloc: Global, rows: &[Row], count: usize) -> Result<Vec<bool>, AllocError>
    ensures { IfOk result (λ forked. length forked.items ≡ count) }
{
    let mut forked = Vec::new(alloc);
    'contexts: for at in 0..count {
        forked.push(at < rows.len() && rows[at].forked)?;
    }
    Ok(forked)
}

/// Lists the steps of the thread that begins with a call, or none where there is no such call. All
/// calls that are forked are of one group, which has the number 2.
pub(crate) fn list_steps(
    alloc: Global,
    rows: &[Row],
    head: usize,
) -> Result<Vec<Step>, AllocError> {
    let span = make_span(alloc)?;
    let calls = list_calls(alloc, &span, rows)?;
    let below = calls_below(alloc, &calls)?;
    let numbers = number_contexts(alloc, calls.len())?;
    let forked = mark_forked(alloc, rows, calls.len())?;
    let groups = group_contexts(alloc, calls.len())?;
    let group_numbers = vec![in alloc; 2; calls.len()]?;
    let forking = Forking {
        numbers: &numbers,
        forked: &forked,
        groups: &groups,
    };
    let table = make_steps(alloc, &calls, &below, forking, &group_numbers)?;
    if head < calls.len() {
        table.thread(alloc, head)
    } else {
        Ok(Vec::new(alloc))
    }
}
