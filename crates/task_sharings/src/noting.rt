ghost use Rattle.std.specs.Prelude.{◌≡◌, ◌+◌, ◌*◌, ◌<◌, ◌≤◌, OnOk};
ghost use Rattle.task_sharings.specs.inner.Tables.{AreNoted, CanBeNoted, IsTraceNoted, IsTraceNext};
ghost use Rattle.task_sharings.specs.inner.Traces.{AreShares};

use crate::adding::with_trace;
use crate::trace_shares::TraceShares;
use evidence_rules::Sharing;
use std::alloc::{AllocError, Global};
use trace_types::NamedTrace;

/// Notes what two tasks share in the trace with this index.
fn note_pair(figures: &mut [Sharing], index: u32, shares: &TraceShares<'_>, from: u32, to: u32)
    requires index { index < 4294967295 }
    requires shares { AreShares shares.now }
    requires first { from < shares.now.tasks }
    requires second { to < shares.now.tasks }
    requires before { CanBeNoted shares.now.tasks index shares.now.trace.now
        (from * shares.now.tasks + to) figures.old }
    ensures { AreNoted shares.now.tasks index shares.now.trace.now
        (from * shares.now.tasks + to) figures.old (from * shares.now.tasks + to + 1) figures.new }
{
    let elements = shares.count(from, to);
    if elements == 0 {
        return;
    }
    let refutes = shares.refutes(from, to);
    let place = from as usize * shares.tasks as usize + to as usize;
    figures[place] = with_trace(&figures[place], index, elements, refutes);
}

/// Notes what a task shares with each task in the trace with this index.
fn note_row(figures: &mut [Sharing], index: u32, shares: &TraceShares<'_>, from: u32)
    requires index { index < 4294967295 }
    requires shares { AreShares shares.now }
    requires first { from < shares.now.tasks }
    requires before { CanBeNoted shares.now.tasks index shares.now.trace.now
        (from * shares.now.tasks) figures.old }
    ensures { AreNoted shares.now.tasks index shares.now.trace.now
        (from * shares.now.tasks) figures.old ((from + 1) * shares.now.tasks) figures.new }
{
    if !shares.has_elements(from) {
        return;
    }
    'others: for to in 0..shares.tasks {
        note_pair(figures, index, shares, from, to);
    }
}

/// Notes what each two tasks below a number share in the trace with this index. The only error is
/// out of memory.
pub(crate) fn note_trace(
    alloc: Global,
    tasks: u32,
    figures: &mut [Sharing],
    index: u32,
    trace: &NamedTrace,
) -> Result<(), AllocError>
    requires few_tasks { tasks ≤ 64 }
    requires index { index < 4294967295 }
    requires before { IsTraceNext tasks index figures.old }
    ensures { OnOk result (IsTraceNoted tasks index trace.now figures.old figures.new) }
{
    let shares = TraceShares::of(alloc, trace, tasks)?;
    'tasks: for from in 0..tasks {
        note_row(figures, index, &shares, from);
    }
    Ok(())
}
