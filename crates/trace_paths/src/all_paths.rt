ghost use Rattle.std.specs.Prelude.{All, IfOk};
ghost use Rattle.std.specs.Borrow.{Bor};
ghost use Rattle.std.specs.List.{AllZip};
ghost use Rattle.refute_tests.specs.Clearing.{HaveNamesBelow};
ghost use Rattle.trace_paths.specs.NumberedPaths.{IsPathUnder};
ghost use Rattle.trace_types.specs.declared.named_trace.NamedTrace.{NamedTrace};

use crate::critical::critical_path_by;
use model_meet::{Exclusions, Model};
use rayon::prelude::*;
use std::alloc::{AllocError, Global};
use std::thread::Threads;
use trace_types::{NamedSegmentList, NamedTrace};
use worker_limit::WorkerLimit;

/// How few traces are worth a thread of their own.
const LEAST_PIECE: usize = 16;

/// Finds the critical path of each trace, by the workers, from the listed exclusions of a model.
fn paths_by<R: Threads + Sync>(
    workers: &WorkerLimit<'_, R>,
    alloc: Global,
    traces: &[&NamedTrace],
    exclusions: &Exclusions,
) -> Result<Vec<NamedSegmentList>, AllocError>
    requires { All (λ (t : Bor NamedTrace). HaveNamesBelow exclusions.now.names t.now) traces.now }
    ensures { IfOk result (λ paths. AllZip (λ (t : Bor NamedTrace) path.
        IsPathUnder exclusions.now t.now path) traces.now paths.items) }
{
    let paths: Result<Vec<NamedSegmentList>, AllocError> = traces
        .par_iter()
        .with_min_len(workers.piece_length(traces.len(), LEAST_PIECE))
        .map(
            |trace: &&NamedTrace| -> Result<NamedSegmentList, AllocError>
                requires { HaveNamesBelow exclusions.now.names trace.now.now }
                ensures { IfOk result (IsPathUnder exclusions.entry.now trace.now.now) }
            { critical_path_by(alloc, trace, exclusions) },
        )
        .collect(workers.runtime, alloc)?;
    paths
}

/// Finds the critical path of each trace, by the workers. The names of the traces are below
/// the model's. The only error is that memory ran out.
pub fn critical_paths<R: Threads + Sync>(
    workers: &WorkerLimit<'_, R>,
    alloc: Global,
    traces: &[&NamedTrace],
    model: &Model,
) -> Result<Vec<NamedSegmentList>, AllocError>
    requires { All (λ (t : Bor NamedTrace). HaveNamesBelow model.now.names t.now) traces.now }
    ensures { IfOk result (λ paths. AllZip
        (λ (t : Bor NamedTrace) path. IsPathUnder model.now t.now path) traces.now paths.items) }
{
    let exclusions = Exclusions::of(alloc, model)?;
    paths_by(workers, alloc, traces, &exclusions)
}
