ghost use Rattle.std.specs.Prelude.{◌≡◌, ◌<◌, ◌≤◌, ◌^◌, All, IfErr, IfOk, length, map, true};
ghost use Rattle.std.specs.Borrow.{Bor};
ghost use Rattle.grace_quality.specs.Near.{is_slight};
ghost use Rattle.grace_quality.specs.declared.near.NearRelation.{NearRelation};
ghost use Rattle.name_meetings.specs.Tables.{IsTableOf};
ghost use Rattle.refute_tests.specs.Clearing.{HaveNamesBelow};
ghost use Rattle.segment_names.specs.Limits.{HasCause};
ghost use Rattle.trace_types.specs.Batch.{PlainTrace};
ghost use Rattle.trace_types.specs.Times.{AreTimely};
ghost use Rattle.trace_types.specs.declared.named_trace.NamedTrace.{NamedTrace};
ghost use Rattle.near_relations.specs.NearRelations.{AreNearRelations, PassesLimitOf};
ghost use Rattle.near_relations.specs.NearRelations.{named_request};
ghost use Rattle.near_relations.specs.inner.Naming.{AreFound, borrowed};

use crate::NearFound;
use crate::naming::name_traces;
use event_table::GatheredEvents;
use grace_quality::{NearRelation, count_met, find_near};
use name_meetings::{MeetingTable, meet_all};
use segment_names::{Catalogue, NameFault};
use std::alloc::{AllocError, Global};
use std::thread::Threads;
use trace_types::laws::numbering_is_one_to_one;
use trace_types::{NameText, NamedTrace};
use worker_limit::WorkerLimit;

/// Lends each of some traces.
fn lend_all(alloc: Global, traces: &[NamedTrace]) -> Result<Vec<&NamedTrace>, AllocError>
    ensures { IfOk result (λ lent. map borrowed lent.items ≡ traces.now) }
{
    let mut lent = Vec::with_capacity(alloc, traces.len())?;
    'traces: for index in 0..traces.len() {
        lent.push(&traces[index])?;
    }
    Ok(lent)
}

/// Makes the table of the meetings of each two names in traces.
fn make_table<R: Threads + Sync>(
    workers: &WorkerLimit<'_, R>,
    alloc: Global,
    names: u32,
    traces: &[NamedTrace],
) -> Result<MeetingTable, AllocError>
    requires few_names { names ≤ 512 }
    requires few { length traces.now < 2 ^ 32 }
    requires below { All (HaveNamesBelow names) traces.now }
    ensures names { IfOk result (λ table. table.names ≡ names) }
    ensures told { IfOk result (IsTableOf names traces.now) }
{
    let lent = lend_all(alloc, traces)?;
    meet_all(workers, alloc, names, &lent)
}

/// Finds the relations in traces, and how many there are of names that meet.
fn find_all<R: Threads + Sync>(
    workers: &WorkerLimit<'_, R>,
    alloc: Global,
    names: u32,
    traces: &[NamedTrace],
) -> Result<(u64, Vec<NearRelation>), AllocError>
    requires few_names { names ≤ 512 }
    requires few { length traces.now < 2 ^ 32 }
    requires below { All (HaveNamesBelow names) traces.now }
    ensures { IfOk result (λ found. AreFound names traces.now found.0 found.1.items) }
{
    let table = make_table(workers, alloc, names, traces)?;
    Ok((count_met(&table, names), find_near(alloc, &table, names)?))
}

/// Finds the relations of the names of a batch's valid traces that some of these traces refute,
/// fewer than one in a hundred of those with both names, and all of them by less than a millisecond.
/// The errors are out of memory, and a limit of names or tasks that the traces pass.
pub fn find_near_relations<R: Threads + Sync>(
    workers: &WorkerLimit<'_, R>,
    alloc: Global,
    gathered: &GatheredEvents,
) -> Result<NearFound, NameFault>
    requires count { length gathered.now.traces < 2 ^ 32 }
    requires few { All (λ (t : PlainTrace). length t.events < 2 ^ 32) gathered.now.traces }
    requires timely { All (λ (t : PlainTrace). AreTimely t.events) gathered.now.traces }
    ensures found { IfOk result (λ f. AreNearRelations gathered.now.traces f.catalogue.names
        (map named_request f.traces.items) f.met f.near.items) }
    ensures slight { IfOk result
        (λ f. All (λ (r : NearRelation). is_slight r.gap ≡ true) f.near.items) }
    ensures cause { IfErr result (HasCause (PassesLimitOf gathered.now.traces)) }
{
    // For the proof alone.
    numbering_is_one_to_one::<NameText>();
    let mut catalogue = Catalogue::new(alloc);
    let traces = name_traces(workers, alloc, gathered, &mut catalogue)?;
    let names = catalogue.names();
    let (met, near) = find_all(workers, alloc, names, &traces)?;
    Ok(NearFound {
        catalogue,
        traces,
        met,
        near,
    })
}
