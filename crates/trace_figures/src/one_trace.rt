ghost use Rattle.std.specs.Prelude.{IfOk};
ghost use Rattle.refute_tests.specs.Clearing.{HaveNamesBelow};
ghost use Rattle.trace_figures.specs.Measured.{IsMeasured};
ghost use Rattle.trace_paths.specs.NumberedPaths.{IsPathUnder};

use crate::TraceFigures;
use crate::one_path::path_in;
use model_meet::Exclusions;
use path_gains::gains;
use slack::slacks;
use std::alloc::{AllocError, Global};
use trace_graph::graph_by;
use trace_types::{NamedSegmentList, NamedTrace};

/// What one trace tells of a page.
#[derive(Drop)]
pub(crate) struct MeasuredTrace {
    /// Its critical path.
    pub(crate) path: NamedSegmentList,
    /// The vertices of its graph, with their slacks and gains.
    pub(crate) figures: TraceFigures,
}

/// Measures a trace over its graph, which is made once, from the listed exclusions of a model.
pub(crate) fn measure_trace(
    alloc: Global,
    trace: &NamedTrace,
    exclusions: &Exclusions,
) -> Result<MeasuredTrace, AllocError>
    requires { HaveNamesBelow exclusions.now.names trace.now }
    ensures path { IfOk result (λ m. IsPathUnder exclusions.now trace.now m.path) }
    ensures figures { IfOk result (λ m. IsMeasured exclusions.now trace.now m.figures) }
{
    let graph = graph_by(alloc, trace, exclusions)?;
    let path = path_in(alloc, trace, &graph)?;
    let slacks = slacks(alloc, &graph.dag)?;
    let gains = gains(alloc, &graph.dag)?;
    Ok(MeasuredTrace {
        path,
        figures: TraceFigures {
            order: graph.order,
            slacks,
            gains,
        },
    })
}
