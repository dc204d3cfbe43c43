ghost use Rattle.std.specs.Prelude.{◌≡◌, ◌++◌, ◌<◌, ◌^◌, All, IfOk, OnOk, length};
ghost use Rattle.std.specs.Thread.{IsSync};
ghost use Rattle.trace_types.specs.Batch.{PlainTrace};
ghost use Rattle.trace_types.specs.Times.{AreTimely};
ghost use Rattle.inspect_run.specs.GraceRows.{AreGraceRows};
ghost use Rattle.inspect_run.specs.NameRows.{AreNameRows};
ghost use Rattle.inspect_run.specs.TraceRows.{AreTraceRows};
ghost use Rattle.inspect_run.specs.inner.Traces.{AppendsAllRows};

use crate::grace_rows::push_grace_rows;
use crate::name_rows::push_name_rows;
use crate::trace_rows::push_trace_rows;
use crate::workers::limit_on;
use event_table::GatheredEvents;
use std::alloc::{AllocError, Global};
use std::thread::{Threads, join};

/// Makes the rows on traces.
fn make_trace_rows<R: Threads + Sync>(
    rt: &R,
    alloc: Global,
    traces: &GatheredEvents,
) -> Result<Vec<u8>, AllocError>
    requires count { length traces.now.traces < 2 ^ 32 }
    requires few { All (λ (t : PlainTrace). length t.events < 2 ^ 32) traces.now.traces }
    requires timely { All (λ (t : PlainTrace). AreTimely t.events) traces.now.traces }
    ensures { IfOk result (λ rows. AreTraceRows traces.now.traces rows.items) }
{
    let mut rows = Vec::new(alloc);
    push_trace_rows(&limit_on(rt), alloc, &mut rows, traces)?;
    Ok(rows)
}

/// Makes the rows on the names and the tasks of the segments of traces.
fn make_name_rows(alloc: Global, traces: &GatheredEvents) -> Result<Vec<u8>, AllocError>
    requires few { All (λ (t : PlainTrace). length t.events < 2 ^ 32) traces.now.traces }
    requires timely { All (λ (t : PlainTrace). AreTimely t.events) traces.now.traces }
    ensures { IfOk result (λ rows. AreNameRows traces.now.traces rows.items) }
{
    let mut rows = Vec::new(alloc);
    push_name_rows(alloc, &mut rows, traces)?;
    Ok(rows)
}

/// Makes the rows on relations that few traces refute.
fn make_grace_rows<R: Threads + Sync>(
    rt: &R,
    alloc: Global,
    traces: &GatheredEvents,
) -> Result<Vec<u8>, AllocError>
    requires count { length traces.now.traces < 2 ^ 32 }
    requires few { All (λ (t : PlainTrace). length t.events < 2 ^ 32) traces.now.traces }
    requires timely { All (λ (t : PlainTrace). AreTimely t.events) traces.now.traces }
    ensures { IfOk result (λ rows. AreGraceRows traces.now.traces rows.items) }
{
    let mut rows = Vec::new(alloc);
    push_grace_rows(&limit_on(rt), alloc, &mut rows, traces)?;
    Ok(rows)
}

/// The rows on names and those on relations.
#[derive(Drop)]
struct NameAndGraceRows {
    names: Vec<u8>,
    graces: Vec<u8>,
}

/// Makes the rows on names, and beside it those on relations.
fn make_name_and_grace_rows<R: Threads + Sync>(
    rt: &R,
    alloc: Global,
    traces: &GatheredEvents,
) -> Result<NameAndGraceRows, AllocError>
    requires count { length traces.now.traces < 2 ^ 32 }
    requires few { All (λ (t : PlainTrace). length t.events < 2 ^ 32) traces.now.traces }
    requires timely { All (λ (t : PlainTrace). AreTimely t.events) traces.now.traces }
    ensures names { IfOk result (λ rows. AreNameRows traces.now.traces rows.names.items) }
    ensures graces { IfOk result (λ rows. AreGraceRows traces.now.traces rows.graces.items) }
{
    let (names, graces) = join(
        rt,
        move || -> Result<Vec<u8>, AllocError>
            requires few { All (λ (t : PlainTrace). length t.events < 2 ^ 32)
                traces.now.traces }
            requires timely { All (λ (t : PlainTrace). AreTimely t.events)
                traces.now.traces }
            ensures { IfOk result (λ rows. AreNameRows traces.entry.now.traces rows.items) }
        { make_name_rows(alloc, traces) },
        move || -> Result<Vec<u8>, AllocError>
            requires sync { IsSync R.row }
            requires count { length traces.now.traces < 2 ^ 32 }
            requires few { All (λ (t : PlainTrace). length t.events < 2 ^ 32)
                traces.now.traces }
            requires timely { All (λ (t : PlainTrace). AreTimely t.events)
                traces.now.traces }
            ensures { IfOk result (λ rows. AreGraceRows traces.entry.now.traces rows.items) }
        { make_grace_rows(rt, alloc, traces) },
    );
    Ok(NameAndGraceRows {
        names: names?,
        graces: graces?,
    })
}

/// The rows on traces, those on names, and those on relations.
#[derive(Drop)]
struct RowTexts {
    traces: Vec<u8>,
    names: Vec<u8>,
    graces: Vec<u8>,
}

/// Makes all rows on traces, those on names and relations beside those on traces themselves.
fn make_all_rows<R: Threads + Sync>(
    rt: &R,
    alloc: Global,
    traces: &GatheredEvents,
) -> Result<RowTexts, AllocError>
    requires count { length traces.now.traces < 2 ^ 32 }
    requires few { All (λ (t : PlainTrace). length t.events < 2 ^ 32) traces.now.traces }
    requires timely { All (λ (t : PlainTrace). AreTimely t.events) traces.now.traces }
    ensures traces { IfOk result (λ rows. AreTraceRows traces.now.traces rows.traces.items) }
    ensures names { IfOk result (λ rows. AreNameRows traces.now.traces rows.names.items) }
    ensures graces { IfOk result (λ rows. AreGraceRows traces.now.traces rows.graces.items) }
{
    let (rows, named) = join(
        rt,
        move || -> Result<Vec<u8>, AllocError>
            requires sync { IsSync R.row }
            requires count { length traces.now.traces < 2 ^ 32 }
            requires few { All (λ (t : PlainTrace). length t.events < 2 ^ 32)
                traces.now.traces }
            requires timely { All (λ (t : PlainTrace). AreTimely t.events)
                traces.now.traces }
            ensures { IfOk result (λ rows. AreTraceRows traces.entry.now.traces rows.items) }
        { make_trace_rows(rt, alloc, traces) },
        move || -> Result<NameAndGraceRows, AllocError>
            requires sync { IsSync R.row }
            requires count { length traces.now.traces < 2 ^ 32 }
            requires few { All (λ (t : PlainTrace). length t.events < 2 ^ 32)
                traces.now.traces }
            requires timely { All (λ (t : PlainTrace). AreTimely t.events)
                traces.now.traces }
            ensures names { IfOk result
                (λ rows. AreNameRows traces.entry.now.traces rows.names.items) }
            ensures graces { IfOk result
                (λ rows. AreGraceRows traces.entry.now.traces rows.graces.items) }
        { make_name_and_grace_rows(rt, alloc, traces) },
    );
    let rows = rows?;
    let NameAndGraceRows { names, graces } = named?;
    Ok(RowTexts {
        traces: rows,
        names,
        graces,
    })
}

/// Appends the rows.
fn append_rows(text: &mut Vec<u8>, rows: &RowTexts) -> Result<(), AllocError>
    ensures { OnOk result (text.new.items ≡ text.old.items
        ++ rows.now.traces.items ++ rows.now.names.items ++ rows.now.graces.items) }
{
    text.extend_from_slice(&rows.traces)?;
    text.extend_from_slice(&rows.names)?;
    text.extend_from_slice(&rows.graces)
}

/// Appends all rows on traces: on traces themselves, on the names of their segments, and on
/// relations that few of them refute. These three are made beside each other, each with threads of
/// its own. The only error is out of memory.
pub(crate) fn push_all_rows<R: Threads + Sync>(
    rt: &R,
    alloc: Global,
    text: &mut Vec<u8>,
    traces: &GatheredEvents,
) -> Result<(), AllocError>
    requires count { length traces.now.traces < 2 ^ 32 }
    requires few { All (λ (t : PlainTrace). length t.events < 2 ^ 32) traces.now.traces }
    requires timely { All (λ (t : PlainTrace). AreTimely t.events) traces.now.traces }
    ensures { OnOk result (AppendsAllRows traces.now.traces text.old.items text.new.items) }
{
    let rows = make_all_rows(rt, alloc, traces)?;
    append_rows(text, &rows)
}
