ghost use Rattle.std.specs.Prelude.{◌≡◌, ◌<◌, ◌≤◌, OnOk, IfErr, List, ℕ};
ghost use Rattle.digest_facts.specs.Digests.{Digest};
ghost use Rattle.digest_merging.specs.Merges.{IsGivenTable, IsTableOf};
ghost use Rattle.session.specs.Carrying.{command_faults};
ghost use Rattle.session.specs.Running.{EndsIn, WritesWhole};
ghost use Rattle.session_rules.specs.ReadyJobs.{AreReady};
ghost use Rattle.trace_types.specs.Segments.{SegmentName};

use crate::{CommandFault, Job, Session};
use digest_text::DigestTable;
use mystery_io::{Gate, Sink};
use std::alloc::Global;
use std::thread::Threads;

/// Carries out jobs in order, from a session without traces, for 1 to 64 workers, to which a digest
/// is given by its table, and writes their text to `out`. At the first job that passes a limit, or
/// that memory or a write fails in, it ends with that fault.
pub fn run_jobs<R: Threads + Sync, S: Sink, G: Gate + Sync>(
    rt: &R,
    alloc: Global,
    workers: u32,
    given: DigestTable,
    jobs: Vec<Job>,
    out: &mut S,
    gate: &G,
) -> Result<(), CommandFault>
    requires some { 0 < workers }
    requires most { workers ≤ 64 }
    requires table { IsGivenTable given }
    requires ready { AreReady jobs.items }
    ensures whole { OnOk result ((digest : Digest SegmentName (List ℕ)) → IsTableOf digest given
        → WritesWhole workers digest jobs.items (S.written out.old) (S.written out.new)) }
    ensures fault { IfErr result (λ fault. (digest : Digest SegmentName (List ℕ))
        → IsTableOf digest given
        → EndsIn fault workers digest jobs.items (S.written out.old) (S.written out.new)) }
    ensures counted { S.faults out.new ≡ command_faults result (S.faults out.old) }
{
    let Ok(mut session) = Session::new(alloc, workers, given) else {
        return Err(CommandFault::Memory);
    };
    for job in jobs {
        session = session.command(rt, job, out, gate)?;
    }
    Ok(())
}
