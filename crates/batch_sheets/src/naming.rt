ghost use Rattle.std.specs.Prelude.{◌≡◌, ◌<◌, ◌≤◌, ◌++◌, ◌∷◌, [], All, List, length, map};
ghost use Rattle.std.specs.Prelude.{IfErr, IfOk, OnOk};
ghost use Rattle.std.specs.List.{AllZip};
ghost use Rattle.book_laws.specs.Shown.{AreShown};
ghost use Rattle.refute_tests.specs.Clearing.{HaveNamesBelow};
ghost use Rattle.segment_names.specs.Known.{with_traces};
ghost use Rattle.segment_names.specs.Limits.{HasCause, PassesLimit};
ghost use Rattle.segment_names.specs.declared.name_fault.NameLimit.{NameLimit};
ghost use Rattle.session_rules.specs.KeptTraces.{kept_with};
ghost use Rattle.trace_types.specs.Limits.{most_grace};
ghost use Rattle.trace_types.specs.declared.trace.Trace.{Trace};
ghost use Rattle.segment_cut.specs.NumberedCuts.{NumberedCut};
ghost use Rattle.batch_sheets.specs.Named.{HasFewSegments, cut_trace};
ghost use Rattle.batch_sheets.specs.inner.Growth.{AddsAndNames, AppendsNamed, CompletesOne};
ghost use Rattle.batch_sheets.specs.inner.Growth.{HasFewIfNew, IsNamedOrNew, IsToBeNamed};
ghost use Rattle.batch_sheets.specs.inner.Growth.{PassesIfNew};

use crate::known_names::{NamedOrNew, name_known_parts};
use crate::parts::LEAST_PART;
use book_laws::laws::grown_shows;
use event_table::Texts;
use segment_cut::CutTrace;
use segment_names::{Catalogue, NameFault, NameOne};
use std::alloc::{AllocError, Global};
use std::thread::Threads;
use trace_types::NamedTrace;

/// Up to this many traces are one window; of more, the last three quarters are one.
const LEAST_WINDOW: usize = 64;

/// Adds the names and tasks of a trace to the catalogue, and names it.
fn name_new(
    alloc: Global,
    catalogue: &mut Catalogue,
    trace: &CutTrace<'_>,
    grace: u64,
) -> Result<NamedTrace, NameFault>
    requires few { HasFewSegments trace.now.trace }
    requires grace { grace ≤ most_grace }
    ensures named { IfOk result (λ named. AddsAndNames catalogue.old catalogue.new grace
        (trace.now.trace ∷ []) (named ∷ [])) }
    ensures cause { IfErr result (HasCause (PassesLimit catalogue.old (trace.now.trace ∷ []))) }
{
    let trace = trace.copy(alloc)?;
    // For the proof alone.
    let _before = catalogue.names();
    catalogue.add(alloc, &trace)?;
    // For the proof alone.
    let _after = catalogue.names();
    match catalogue.name(alloc, trace) {
        Ok(named) => Ok(named.with_grace(grace)),
        Err(NameOne::Memory { .. }) => Err(NameFault::Memory),
        Err(NameOne::Unknown { .. }) => unreachable!(),
    }
}

/// Gives the trace by its numbers; the names of a new one are added first.
fn complete(
    alloc: Global,
    catalogue: &mut Catalogue,
    one: NamedOrNew<'_>,
    grace: u64,
) -> Result<NamedTrace, NameFault>
    requires few { HasFewIfNew one }
    requires grace { grace ≤ most_grace }
    ensures named { IfOk result (CompletesOne grace catalogue.old catalogue.new one.entry) }
    ensures cause { IfErr result (HasCause (PassesIfNew catalogue.old one.entry)) }
{
    match one {
        NamedOrNew::Named { named } => Ok(named),
        NamedOrNew::New { trace } => name_new(alloc, catalogue, &trace, grace),
    }
}

/// Appends a named trace.
fn push_named(named: &mut Vec<NamedTrace>, trace: NamedTrace) -> Result<(), AllocError>
    ensures { OnOk result (named.new.items ≡ named.old.items ++ trace ∷ []) }
{
    Ok(named.push(trace)?)
}

/// Appends the traces by their numbers, in their order. The names of new ones are added, one trace
/// after another.
fn complete_all(
    alloc: Global,
    catalogue: &mut Catalogue,
    list: Vec<NamedOrNew<'_>>,
    grace: u64,
    named: &mut Vec<NamedTrace>,
) -> Result<(), NameFault>
    requires few { All HasFewIfNew list.items }
    requires grace { grace ≤ most_grace }
    ensures named { OnOk result ((traces : List Trace)
        → AllZip (IsNamedOrNew catalogue.old grace) traces list.entry.items
        → AppendsNamed catalogue.old catalogue.new grace traces named.old.items named.new.items) }
    ensures cause { IfErr result (λ fault. (traces : List Trace)
        → AllZip (IsNamedOrNew catalogue.old grace) traces list.entry.items
        → HasCause (PassesLimit catalogue.old traces) fault) }
{
    // For the proof alone.
    grown_shows();
    let _names = catalogue.names();
    for one in list {
        let trace = complete(alloc, catalogue, one, grace)?;
        push_named(named, trace)?;
    }
    Ok(())
}

/// Names the traces of a window by all workers, and then adds and names those with new names.
fn name_window<R: Threads + Sync>(
    rt: &R,
    alloc: Global,
    catalogue: &mut Catalogue,
    texts: &Texts,
    traces: Vec<CutTrace<'_>>,
    grace: u64,
    workers: u32,
    named: &mut Vec<NamedTrace>,
) -> Result<(), NameFault>
    requires given { All (IsToBeNamed texts.now) traces.items }
    requires grace { grace ≤ most_grace }
    ensures named { OnOk result (AppendsNamed catalogue.old catalogue.new grace
        (map cut_trace traces.entry.items) named.old.items named.new.items) }
    ensures cause { IfErr result
        (HasCause (PassesLimit catalogue.old (map cut_trace traces.entry.items))) }
{
    let parts = (workers as usize).min(traces.len() / LEAST_PART);
    let list = name_known_parts(rt, alloc, catalogue, texts, traces, grace, parts)?;
    complete_all(alloc, catalogue, list, grace, named)
}

/// Names traces window by window. Each window is some four times as large as the one before it, so
/// all workers know nearly all names that come early.
fn name_windows<R: Threads + Sync>(
    rt: &R,
    alloc: Global,
    catalogue: &mut Catalogue,
    texts: &Texts,
    mut traces: Vec<CutTrace<'_>>,
    grace: u64,
    workers: u32,
    named: &mut Vec<NamedTrace>,
) -> Result<(), NameFault>
    requires given { All (IsToBeNamed texts.now) traces.items }
    requires grace { grace ≤ most_grace }
    ensures named { OnOk result (AppendsNamed catalogue.old catalogue.new grace
        (map cut_trace traces.entry.items) named.old.items named.new.items) }
    ensures cause { IfErr result
        (HasCause (PassesLimit catalogue.old (map cut_trace traces.entry.items))) }
{
    if traces.len() <= LEAST_WINDOW {
        return name_window(rt, alloc, catalogue, texts, traces, grace, workers, named);
    }
    // For the proof alone.
    grown_shows();
    let last = traces.split_off(traces.len() / 4)?;
    name_windows(rt, alloc, catalogue, texts, traces, grace, workers, named)?;
    name_window(rt, alloc, catalogue, texts, last, grace, workers, named)
}

/// Adds the names and tasks of traces to the catalogue, one trace after another, and names all with
/// this grace, in nanoseconds, by up to so many workers, in parallel. The texts are those that the
/// numbers of the traces stand for. The traces stay in their order. A limit is told where the
/// traces pass it, and memory may run out at any time; after an error the catalogue may have some
/// of the names.
pub fn name_batch<R: Threads + Sync>(
    rt: &R,
    alloc: Global,
    catalogue: &mut Catalogue,
    texts: &Texts,
    traces: Vec<CutTrace<'_>>,
    grace: u64,
    workers: u32,
) -> Result<Vec<NamedTrace>, NameFault>
    requires few { All HasFewSegments (map cut_trace traces.items) }
    requires texts { All (λ (c : NumberedCut). c.texts ≡ texts.now) traces.items }
    requires grace { grace ≤ most_grace }
    ensures added { OnOk result
        (catalogue.new ≡ with_traces catalogue.old (map cut_trace traces.entry.items)) }
    ensures none { OnOk result ((limit : NameLimit)
        → PassesLimit catalogue.old (map cut_trace traces.entry.items) limit → ⊥) }
    ensures shown { IfOk result (λ named. AreShown catalogue.new named.items
        (map (kept_with grace) (map cut_trace traces.entry.items))) }
    ensures below { IfOk result
        (λ named. All (HaveNamesBelow (length catalogue.new.names)) named.items) }
    ensures cause { IfErr result
        (HasCause (PassesLimit catalogue.old (map cut_trace traces.entry.items))) }
{
    let mut named = Vec::with_capacity(alloc, traces.len())?;
    name_windows(
        rt, alloc, catalogue, texts, traces, grace, workers, &mut named,
    )?;
    Ok(named)
}
