ghost use Rattle.std.specs.Prelude.{◌≡◌, ◌<◌, ◌^◌, All, IfErr, IfOk, length};
ghost use Rattle.segment_names.specs.Limits.{HasCause};
ghost use Rattle.trace_types.specs.Batch.{PlainTrace};
ghost use Rattle.trace_types.specs.Times.{AreTimely};
ghost use Rattle.near_relations.specs.NearRelations.{PassesLimitOf, nothing_known};
ghost use Rattle.near_relations.specs.inner.Naming.{IsBatchNamed};

use batch_sheets::{judge_batch, name_batch};
use event_table::GatheredEvents;
use segment_names::{Catalogue, NameFault};
use std::alloc::Global;
use std::thread::Threads;
use trace_types::NamedTrace;
use worker_limit::WorkerLimit;

/// Cuts the traces of a batch, and names the valid ones by an empty catalogue, to which their names
/// are added.
pub(crate) fn name_traces<R: Threads + Sync>(
    workers: &WorkerLimit<'_, R>,
    alloc: Global,
    gathered: &GatheredEvents,
    catalogue: &mut Catalogue,
) -> Result<Vec<NamedTrace>, NameFault>
    requires empty { catalogue.old ≡ nothing_known }
    requires few { All (λ (t : PlainTrace). length t.events < 2 ^ 32) gathered.now.traces }
    requires timely { All (λ (t : PlainTrace). AreTimely t.events) gathered.now.traces }
    ensures named { IfOk result
        (λ named. IsBatchNamed gathered.now.traces catalogue.new named.items) }
    ensures cause { IfErr result (HasCause (PassesLimitOf gathered.now.traces)) }
{
    let judged = judge_batch(workers.runtime, alloc, gathered, workers.most)?;
    name_batch(
        workers.runtime,
        alloc,
        catalogue,
        gathered.texts(),
        judged.valid,
        0,
        workers.most,
    )
}
