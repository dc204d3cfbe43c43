ghost use Rattle.std.specs.Prelude.{◌≡◌, ◌<◌, ◌≤◌, ◌++◌, All, IfOk, map};
ghost use Rattle.std.specs.List.{AllZip};
ghost use Rattle.std.specs.Thread.{IsSync};
ghost use Rattle.trace_types.specs.Limits.{most_grace};
ghost use Rattle.batch_sheets.specs.Named.{cut_trace};
ghost use Rattle.batch_sheets.specs.inner.Growth.{IsNamedOrNew, IsToBeNamed};

use event_table::Texts;
use segment_cut::CutTrace;
use segment_names::{Catalogue, Namer};
use std::alloc::{AllocError, Global};
use std::thread::{Threads, join};
use trace_types::NamedTrace;

/// A trace that is named, or one that has a new name.
#[derive(Drop)]
pub(crate) enum NamedOrNew<'a> {
    /// All its names were in the catalogue.
    Named {
        /// The trace, with its grace.
        named: NamedTrace,
    },
    /// Some name of it was not.
    New {
        /// The trace that is to be named.
        trace: CutTrace<'a>,
    },
}

/// Names a trace and gives it its grace, where all its names are in the catalogue.
fn name_known<'a>(
    alloc: Global,
    namer: &mut Namer<'_>,
    trace: CutTrace<'a>,
    grace: u64,
) -> Result<NamedOrNew<'a>, AllocError>
    requires given { IsToBeNamed namer.old.texts trace }
    requires grace { grace ≤ most_grace }
    ensures unchanged { namer.new ≡ namer.old }
    ensures named { IfOk result (IsNamedOrNew namer.new.known grace trace.entry.trace) }
{
    let known = namer.name(alloc, &trace)?;
    match known {
        Some(named) => Ok(NamedOrNew::Named {
            named: named.with_grace(grace),
        }),
        None => Ok(NamedOrNew::New { trace }),
    }
}

/// Names those of the traces whose names are all in the catalogue, one after another.
fn name_known_all<'a>(
    alloc: Global,
    catalogue: &Catalogue,
    texts: &Texts,
    traces: Vec<CutTrace<'a>>,
    grace: u64,
) -> Result<Vec<NamedOrNew<'a>>, AllocError>
    requires given { All (IsToBeNamed texts.now) traces.items }
    requires grace { grace ≤ most_grace }
    ensures { IfOk result (λ list. AllZip (IsNamedOrNew catalogue.now grace)
        (map cut_trace traces.entry.items) list.items) }
{
    let mut namer = Namer::new(alloc, catalogue, texts)?;
    let mut list = Vec::with_capacity(alloc, traces.len())?;
    for trace in traces {
        list.push(name_known(alloc, &mut namer, trace, grace)?)?;
    }
    Ok(list)
}

/// Appends the traces of a later part to those of an earlier one.
fn join_named<'a>(
    mut front: Vec<NamedOrNew<'a>>,
    mut back: Vec<NamedOrNew<'a>>,
) -> Result<Vec<NamedOrNew<'a>>, AllocError>
    ensures { IfOk result (λ list. list.items ≡ front.entry.items ++ back.entry.items) }
{
    front.append(&mut back)?;
    Ok(front)
}

/// Names those of the traces whose names are all in the catalogue, in so many parts, in parallel.
/// All traces stay in their order.
pub(crate) fn name_known_parts<'a, R: Threads + Sync>(
    rt: &R,
    alloc: Global,
    catalogue: &Catalogue,
    texts: &Texts,
    mut traces: Vec<CutTrace<'a>>,
    grace: u64,
    parts: usize,
) -> Result<Vec<NamedOrNew<'a>>, AllocError>
    requires given { All (IsToBeNamed texts.now) traces.items }
    requires grace { grace ≤ most_grace }
    ensures { IfOk result (λ list. AllZip (IsNamedOrNew catalogue.now grace)
        (map cut_trace traces.entry.items) list.items) }
{
    if parts <= 1 {
        return name_known_all(alloc, catalogue, texts, traces, grace);
    }
    let last = traces.split_off(traces.len() - traces.len() / parts)?;
    let (back, front) = join(
        rt,
        move || -> Result<Vec<NamedOrNew>, AllocError>
            requires given { All (IsToBeNamed texts.now) last.items }
            requires grace { grace ≤ most_grace }
            ensures { IfOk result (λ list. AllZip (IsNamedOrNew catalogue.entry.now grace)
                (map cut_trace last.entry.items) list.items) }
        { name_known_all(alloc, catalogue, texts, last, grace) },
        move || -> Result<Vec<NamedOrNew>, AllocError>
            requires sync { IsSync R.row }
            requires given { All (IsToBeNamed texts.now) traces.items }
            requires grace { grace ≤ most_grace }
            requires parts { 1 < parts }
            ensures { IfOk result (λ list. AllZip (IsNamedOrNew catalogue.entry.now grace)
                (map cut_trace traces.entry.items) list.items) }
        { name_known_parts(rt, alloc, catalogue, texts, traces, grace, parts - 1) },
    );
    join_named(front?, back?)
}
