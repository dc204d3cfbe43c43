ghost use Rattle.std.specs.Prelude.{◌≡◌, ◌≤◌, ◌<◌, Some};
ghost use Rattle.session_rules.specs.declared.job.Job.TheVariants.{WhatIf};
ghost use Rattle.mystery_run.specs.Works.{work_from};
ghost use Rattle.mystery_run.specs.inner.GivenTables.{AreGiven};
ghost use Rattle.mystery_run.specs.inner.InputEnds.{InputEnds};
ghost use Rattle.mystery_run.specs.inner.Inputs.{IsWithinLimit, lines_said_by};
ghost use Rattle.mystery_run.specs.inner.Leaving.{LeavesSink};
ghost use Rattle.mystery_run.specs.inner.OutcomeFaults.{outcome_faults};
ghost use Rattle.mystery_run.specs.inner.ParsedLines.{change_of};

use crate::Outcome;
use crate::change_words::ChangeWords;
use crate::input::Input;
use crate::session_run::run_session;
use digest_text::DigestTable;
use mystery_io::{Gate, Sink};
use session::Job;
use std::alloc::Global;
use std::thread::Threads;

/// Carries out the jobs of the lines of an input under what these tables give, adds the events since
/// the last add, and prints how long the critical paths would be under the change.
pub(crate) fn run_forecast<R: Threads + Sync, S: Sink, G: Gate + Sync>(
    rt: &R,
    alloc: Global,
    workers: u32,
    tables: Vec<DigestTable>,
    change: ChangeWords<'_>,
    input: Input,
    out: &mut S,
    gate: &G,
) -> Outcome
    requires some { 0 < workers }
    requires most { workers ≤ 64 }
    requires given { AreGiven tables.items }
    requires positive { 0 < change.den }
    requires less { change.num ≤ change.den }
    requires within { IsWithinLimit input }
    ensures ends { let last = WhatIf (change_of change.entry) in
        InputEnds workers (work_from tables.items (Some last) (lines_said_by input)) result
        (S.written out.old) (S.written out.new) }
    ensures leaves { LeavesSink result out.old out.new }
    ensures counted { S.faults out.new ≡ outcome_faults result (S.faults out.old) }
{
    match change.copy(alloc) {
        Ok(change) => run_session(
            rt,
            alloc,
            workers,
            tables,
            Some(Job::WhatIf { change }),
            input,
            out,
            gate,
        ),
        Err(_) => Outcome::Memory,
    }
}
