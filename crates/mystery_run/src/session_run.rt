ghost use Rattle.std.specs.Prelude.{◌≡◌, ◌≤◌, ◌<◌, IfSome, Ok};
ghost use Rattle.session_rules.specs.ReadyJobs.{AreReady};
ghost use Rattle.mystery_run.specs.Works.{Jobs, work_from};
ghost use Rattle.mystery_run.specs.inner.GivenTables.{AreGiven};
ghost use Rattle.mystery_run.specs.inner.InputEnds.{InputEnds};
ghost use Rattle.mystery_run.specs.inner.Inputs.{IsWithinLimit, lines_said_by};
ghost use Rattle.mystery_run.specs.inner.LastJobs.{IsLastJob};
ghost use Rattle.mystery_run.specs.inner.Leaving.{LeavesSink};
ghost use Rattle.mystery_run.specs.inner.OutcomeFaults.{outcome_faults};

use crate::input::Input;
use crate::job_reading::read_jobs;
use crate::{Outcome, Reason};
use digest_merging::{MergeFault, merge_all};
use digest_text::DigestTable;
use event_lines::LineError;
use mystery_io::{Gate, Sink};
use session::{Job, run_jobs};
use std::alloc::Global;
use std::thread::Threads;

/// Carries out jobs under what these tables give, and prints their text.
fn carry_out<R: Threads + Sync, S: Sink, G: Gate + Sync>(
    rt: &R,
    alloc: Global,
    workers: u32,
    tables: Vec<DigestTable>,
    jobs: Vec<Job>,
    out: &mut S,
    gate: &G,
) -> Outcome
    requires some { 0 < workers }
    requires most { workers ≤ 64 }
    requires given { AreGiven tables.items }
    requires ready { AreReady jobs.items }
    ensures ends { InputEnds workers (Ok (Jobs tables.items jobs.items)) result
        (S.written out.old) (S.written out.new) }
    ensures leaves { LeavesSink result out.old out.new }
    ensures counted { S.faults out.new ≡ outcome_faults result (S.faults out.old) }
{
    let given = match merge_all(alloc, &tables) {
        Ok(given) => given,
        Err(MergeFault::Memory) => return Outcome::Memory,
        Err(MergeFault::Limit(limit)) => return Outcome::OverGiven { limit },
    };
    drop(tables);
    match run_jobs(rt, alloc, workers, given, jobs, out, gate) {
        Ok(()) => Outcome::Done,
        Err(fault) => Outcome::from(fault),
    }
}

/// Carries out the jobs of the lines of an input, and the last job, which no control line asks for,
/// under what these tables give, and prints their text.
pub(crate) fn run_session<R: Threads + Sync, S: Sink, G: Gate + Sync>(
    rt: &R,
    alloc: Global,
    workers: u32,
    tables: Vec<DigestTable>,
    last: Option<Job>,
    input: Input,
    out: &mut S,
    gate: &G,
) -> Outcome
    requires some { 0 < workers }
    requires most { workers ≤ 64 }
    requires given { AreGiven tables.items }
    requires last { IfSome last IsLastJob }
    requires within { IsWithinLimit input }
    ensures ends { InputEnds workers (work_from tables.items last (lines_said_by input)) result
        (S.written out.old) (S.written out.new) }
    ensures leaves { LeavesSink result out.old out.new }
    ensures counted { S.faults out.new ≡ outcome_faults result (S.faults out.old) }
{
    match read_jobs(rt, alloc, workers, input, last) {
        Ok(jobs) => carry_out(rt, alloc, workers, tables, jobs, out, gate),
        Err(LineError::Memory) => Outcome::Memory,
        Err(LineError::Bad { line, why }) => Outcome::BadLine {
            line,
            why: Reason::Line { why },
        },
    }
}
