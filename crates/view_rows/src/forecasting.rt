ghost use Rattle.std.specs.Prelude.{◌^◌, ◌<◌, ◌≤◌, All, IfOk};
ghost use Rattle.std.specs.Borrow.{Bor};
ghost use Rattle.std.specs.List.{AllZip};
ghost use Rattle.view_rows.specs.inner.NumberedForecasts.{IsForecastUnder, changes_of};
ghost use Rattle.refute_tests.specs.Clearing.{HaveNamesBelow};
ghost use Rattle.trace_types.specs.declared.named_trace.NamedTrace.{NamedTrace};
ghost use Rattle.what_if.specs.ForecastLaws.{IsNoGreater};

use model_meet::{Exclusions, Model};
use rayon::prelude::*;
use segment_names::Catalogue;
use session_rules::NamedChange;
use std::alloc::{AllocError, Global};
use std::thread::Threads;
use trace_graph::graph_by;
use trace_rules::Forecast;
use trace_types::NamedTrace;
use what_if::laws::{changes_raise_no_weight, graph_has_segments, loses_no_more};
use what_if::{Change, predict};
use worker_limit::WorkerLimit;

/// How few traces are worth a thread of their own.
const LEAST_PIECE: usize = 16;

/// States that each weight has 64 bits. It does nothing.
fn weights_have_words(weights: &[u64])
    ensures { All (λ w. w < 2 ^ 64) weights.now }
{}

/// Forecasts one trace, by its graph, which is made from the listed exclusions of a model.
fn forecast_trace(
    alloc: Global,
    trace: &NamedTrace,
    exclusions: &Exclusions,
    changes: &[Change],
) -> Result<Forecast, AllocError>
    requires below { HaveNamesBelow exclusions.now.names trace.now }
    requires less { All IsNoGreater changes.now }
    ensures { IfOk result (IsForecastUnder exclusions.now.words changes.now trace.now) }
{
    // For the proof alone.
    graph_has_segments();
    changes_raise_no_weight();
    loses_no_more();
    let ordered = graph_by(alloc, trace, exclusions)?;
    weights_have_words(ordered.dag.weights());
    predict(alloc, trace, &ordered, changes)
}

/// Forecasts each trace, by the workers, from the listed exclusions of a model.
fn forecast_by<R: Threads + Sync>(
    workers: &WorkerLimit<'_, R>,
    alloc: Global,
    traces: &[&NamedTrace],
    exclusions: &Exclusions,
    changes: &[Change],
) -> Result<Vec<Forecast>, AllocError>
    requires below { All (λ (t : Bor NamedTrace). HaveNamesBelow exclusions.now.names t.now)
        traces.now }
    requires less { All IsNoGreater changes.now }
    ensures { IfOk result (λ forecasts. AllZip (λ (t : Bor NamedTrace) f.
        IsForecastUnder exclusions.now.words changes.now t.now f) traces.now forecasts.items) }
{
    let forecasts: Result<Vec<Forecast>, AllocError> = traces
        .par_iter()
        .with_min_len(workers.piece_length(traces.len(), LEAST_PIECE))
        .map(
            |trace: &&NamedTrace| -> Result<Forecast, AllocError>
                requires below { HaveNamesBelow exclusions.now.names trace.now.now }
                requires less { All IsNoGreater changes.now }
                ensures { IfOk result
                    (IsForecastUnder exclusions.entry.now.words changes.entry.now trace.now.now) }
            { forecast_trace(alloc, trace, exclusions, changes) },
        )
        .collect(workers.runtime, alloc)?;
    forecasts
}

/// Forecasts each trace, by the workers.
fn forecast_each<R: Threads + Sync>(
    workers: &WorkerLimit<'_, R>,
    alloc: Global,
    traces: &[&NamedTrace],
    model: &Model,
    changes: &[Change],
) -> Result<Vec<Forecast>, AllocError>
    requires below { All (λ (t : Bor NamedTrace). HaveNamesBelow model.now.names t.now) traces.now }
    requires less { All IsNoGreater changes.now }
    ensures { IfOk result (λ forecasts. AllZip (λ (t : Bor NamedTrace) f.
        IsForecastUnder model.now.words changes.now t.now f) traces.now forecasts.items) }
{
    let exclusions = Exclusions::of(alloc, model)?;
    forecast_by(workers, alloc, traces, &exclusions, changes)
}

/// Forecasts each trace with a change of the name that has a text in a catalogue; where there is no
/// such name, nothing changes. The only error is that memory ran out.
pub(crate) fn forecast_change<R: Threads + Sync>(
    workers: &WorkerLimit<'_, R>,
    alloc: Global,
    traces: &[&NamedTrace],
    model: &Model,
    catalogue: &Catalogue,
    change: &NamedChange,
) -> Result<Vec<Forecast>, AllocError>
    requires below { All (λ (t : Bor NamedTrace). HaveNamesBelow model.now.names t.now) traces.now }
    requires some { 0 < change.now.den }
    requires less { change.now.num ≤ change.now.den }
    ensures { IfOk result (λ forecasts. AllZip (λ (t : Bor NamedTrace) f.
        IsForecastUnder model.now.words (changes_of catalogue.now change.now) t.now f)
        traces.now forecasts.items) }
{
    let Some(name) = catalogue.find(&change.name) else {
        return forecast_each(workers, alloc, traces, model, &[]);
    };
    let change = Change {
        name,
        num: change.num,
        den: change.den,
    };
    forecast_each(workers, alloc, traces, model, &[change])
}
