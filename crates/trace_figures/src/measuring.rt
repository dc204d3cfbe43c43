ghost use Rattle.std.specs.Prelude.{◌≡◌, All, IfOk, map};
ghost use Rattle.std.specs.Borrow.{Bor};
ghost use Rattle.std.specs.List.{AllZip};
ghost use Rattle.refute_tests.specs.Clearing.{HaveNamesBelow};
ghost use Rattle.trace_figures.specs.Measured.{IsMeasured};
ghost use Rattle.trace_figures.specs.declared.one_trace.MeasuredTrace.{MeasuredTrace};
ghost use Rattle.trace_figures.specs.inner.Both.{IsMeasuredWithPath};
ghost use Rattle.trace_paths.specs.NumberedPaths.{IsPathUnder};
ghost use Rattle.trace_types.specs.declared.named_trace.NamedTrace.{NamedTrace};

use crate::PageFigures;
use crate::one_trace::{MeasuredTrace, measure_trace};
use model_meet::{Exclusions, Model};
use rayon::prelude::*;
use std::alloc::{AllocError, Global};
use std::thread::Threads;
use trace_types::NamedTrace;
use worker_limit::WorkerLimit;

/// How few traces are worth a thread of their own.
const LEAST_PIECE: usize = 16;

/// Measures each trace, by the workers, from the listed exclusions of a model.
fn measure_by<R: Threads + Sync>(
    workers: &WorkerLimit<'_, R>,
    alloc: Global,
    traces: &[&NamedTrace],
    exclusions: &Exclusions,
) -> Result<Vec<MeasuredTrace>, AllocError>
    requires { All (λ (t : Bor NamedTrace). HaveNamesBelow exclusions.now.names t.now) traces.now }
    ensures { IfOk result (λ measured. AllZip
        (λ (t : Bor NamedTrace) m. IsMeasuredWithPath exclusions.now t.now m)
        traces.now measured.items) }
{
    let measured: Result<Vec<MeasuredTrace>, AllocError> = traces
        .par_iter()
        .with_min_len(workers.piece_length(traces.len(), LEAST_PIECE))
        .map(
            |trace: &&NamedTrace| -> Result<MeasuredTrace, AllocError>
                requires { HaveNamesBelow exclusions.now.names trace.now.now }
                ensures { IfOk result (IsMeasuredWithPath exclusions.entry.now trace.now.now) }
            { measure_trace(alloc, trace, exclusions) },
        )
        .collect(workers.runtime, alloc)?;
    measured
}

/// Takes paths and figures apart, without copying them.
fn take_apart(alloc: Global, measured: Vec<MeasuredTrace>) -> Result<PageFigures, AllocError>
    ensures paths { IfOk result (λ page. page.paths.items
        ≡ map (λ (m : MeasuredTrace). m.path) measured.items) }
    ensures traces { IfOk result (λ page. page.traces.items
        ≡ map (λ (m : MeasuredTrace). m.figures) measured.items) }
{
    let mut paths = Vec::with_capacity(alloc, measured.len())?;
    let mut traces = Vec::with_capacity(alloc, measured.len())?;
    'measured: for each in measured {
        paths.push(each.path)?;
        traces.push(each.figures)?;
    }
    Ok(PageFigures { paths, traces })
}

/// Finds the critical path of each trace and the figures of its segments, by the workers, where the
/// mutual exclusions survive that the bits of the model's words keep. The names of the traces are
/// below the model's. The graph of each trace is made once, and not kept. The only error is that
/// memory ran out.
pub fn measure_traces<R: Threads + Sync>(
    workers: &WorkerLimit<'_, R>,
    alloc: Global,
    traces: &[&NamedTrace],
    model: &Model,
) -> Result<PageFigures, AllocError>
    requires { All (λ (t : Bor NamedTrace). HaveNamesBelow model.now.names t.now) traces.now }
    ensures paths { IfOk result (λ page. AllZip
        (λ (t : Bor NamedTrace) path. IsPathUnder model.now t.now path)
        traces.now page.paths.items) }
    ensures figures { IfOk result (λ page. AllZip
        (λ (t : Bor NamedTrace) f. IsMeasured model.now t.now f) traces.now page.traces.items) }
{
    let exclusions = Exclusions::of(alloc, model)?;
    let measured = measure_by(workers, alloc, traces, &exclusions)?;
    take_apart(alloc, measured)
}
