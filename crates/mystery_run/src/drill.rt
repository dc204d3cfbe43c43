ghost use Rattle.std.specs.Prelude.{◌≡◌, ◌≤◌, ◌<◌, Some};
ghost use Rattle.drill_input.specs.DrillInput.{drill_input};
ghost use Rattle.session_rules.specs.declared.job.Job.TheVariants.{Summary};
ghost use Rattle.mystery_run.specs.Works.{jobs_said};
ghost use Rattle.mystery_run.specs.inner.GivenTables.{AreGiven};
ghost use Rattle.mystery_run.specs.inner.InputEnds.{InputEnds};
ghost use Rattle.mystery_run.specs.inner.Leaving.{LeavesSink};
ghost use Rattle.mystery_run.specs.inner.OutcomeFaults.{outcome_faults};

use crate::Outcome;
use crate::input::Input;
use crate::session_run::run_session;
use digest_text::DigestTable;
use drill_input::generate;
use mystery_io::{Gate, Sink};
use session::Job;
use std::alloc::Global;
use std::thread::Threads;

/// Makes the events of so many traces by draws from a number, adds them, and prints their summary.
pub(crate) fn run_drill<R: Threads + Sync, S: Sink, G: Gate + Sync>(
    rt: &R,
    alloc: Global,
    workers: u32,
    tables: Vec<DigestTable>,
    number: u32,
    traces: u32,
    out: &mut S,
    gate: &G,
) -> Outcome
    requires some { 0 < workers }
    requires most { workers ≤ 64 }
    requires given { AreGiven tables.items }
    requires few { traces ≤ 20000 }
    ensures ends { let input = drill_input number traces in
        InputEnds workers (jobs_said tables.items (Some Summary) input) result
        (S.written out.old) (S.written out.new) }
    ensures leaves { LeavesSink result out.old out.new }
    ensures counted { S.faults out.new ≡ outcome_faults result (S.faults out.old) }
{
    match generate(alloc, number, traces) {
        Ok(bytes) => {
            let input = Input::Bytes { bytes };
            run_session(
                rt,
                alloc,
                workers,
                tables,
                Some(Job::Summary),
                input,
                out,
                gate,
            )
        }
        Err(_) => Outcome::Memory,
    }
}
