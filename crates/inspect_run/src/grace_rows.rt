ghost use Rattle.std.specs.Prelude.{◌≡◌, ◌++◌, ◌<◌, ◌^◌, All, List, OnOk, length, map, true};
ghost use Rattle.grace_quality.specs.Near.{is_slight};
ghost use Rattle.grace_quality.specs.declared.near.NearRelation.{NearRelation};
ghost use Rattle.near_relations.specs.NearRelations.{AreNearRelations, named_request};
ghost use Rattle.trace_types.specs.Batch.{PlainTrace};
ghost use Rattle.trace_types.specs.Times.{AreTimely};
ghost use Rattle.inspect_run.specs.GraceRows.{HasNearRows, too_many_row};
ghost use Rattle.inspect_run.specs.inner.Graces.{AppendsGraceRows};

use crate::near_rows::{list_told, push_count, push_nears};
use event_table::GatheredEvents;
use near_relations::{NearFound, find_near_relations};
use segment_names::NameFault;
use std::alloc::{AllocError, Global};
use std::thread::Threads;
use worker_limit::WorkerLimit;

/// Appends the rows on the relations that were found.
fn push_found(alloc: Global, text: &mut Vec<u8>, found: &NearFound) -> Result<(), AllocError>
    requires { All (λ (r : NearRelation). is_slight r.gap ≡ true) found.now.near.items }
    ensures { (traces : List PlainTrace) → AreNearRelations traces found.now.catalogue.names
        (map named_request found.now.traces.items) found.now.met found.now.near.items
        → OnOk result (AppendsGraceRows traces text.old.items text.new.items) }
{
    let told = list_told(alloc, &found.near)?;
    push_count(text, found.near.len(), found.met)?;
    push_nears(alloc, text, &found.catalogue, &found.traces, &told)
}

/// Appends the row where there are more names or tasks than a catalogue takes.
fn push_too_many(text: &mut Vec<u8>) -> Result<(), AllocError>
    ensures { OnOk result (text.new.items ≡ text.old.items ++ too_many_row) }
{
    text.extend_from_slice(b"grace\tnote\t-\t-\t-\ttoo many names or tasks\n")
}

/// Appends the rows on relations that few traces refute, all of these by little. The only error is
/// out of memory.
pub(crate) fn push_grace_rows<R: Threads + Sync>(
    workers: &WorkerLimit<'_, R>,
    alloc: Global,
    text: &mut Vec<u8>,
    traces: &GatheredEvents,
) -> Result<(), AllocError>
    requires count { length traces.now.traces < 2 ^ 32 }
    requires few { All (λ (t : PlainTrace). length t.events < 2 ^ 32) traces.now.traces }
    requires timely { All (λ (t : PlainTrace). AreTimely t.events) traces.now.traces }
    ensures { OnOk result (AppendsGraceRows traces.now.traces text.old.items text.new.items) }
{
    match find_near_relations(workers, alloc, traces) {
        Ok(found) => push_found(alloc, text, &found),
        Err(NameFault::Memory) => Err(AllocError),
        Err(NameFault::Over { .. }) => push_too_many(text),
    }
}
