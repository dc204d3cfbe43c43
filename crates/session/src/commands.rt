ghost use Rattle.std.specs.Prelude.{◌≡◌, ◌^◌, ◌+◌, ◌<◌, ◌≤◌, IfOk, IfErr};
ghost use Rattle.session_rules.specs.Jobs.{IsNoAdd};
ghost use Rattle.session_rules.specs.Sessions.{State};
ghost use Rattle.session_rules.specs.declared.job.Job.TheVariants as jobs;
ghost use Rattle.session_rules.specs.ReadyJobs.{IsReady, requests_in};
ghost use Rattle.session.specs.Carrying.{CarriesOut, HasCommandCause, IsLimitFault};
ghost use Rattle.session.specs.Carrying.{command_faults, kept_count};
ghost use Rattle.session.specs.SessionStates.{Shows};

use crate::added_text::print_added;
use crate::{CommandFault, Job, Session};
use event_lines::EventParts;
use mystery_io::{Gate, Sink};
use session_rules::SessionPart;
use std::thread::Threads;
use text_rows::laws::{flush_ends_a_text, flush_ends_parts};
use text_rows::{RowBuffer, flush};

impl Session {
    /// Carries out a job other than an add, and writes its text. After an error the session is
    /// gone.
    fn carry_out<R: Threads + Sync, S: Sink>(
        self,
        rt: &R,
        job: Job,
        out: &mut S,
    ) -> Result<Session, CommandFault>
        requires ready { IsReady job }
        requires no_add { IsNoAdd job }
        ensures carried { IfOk result (λ session. (s : State) → Shows self s
            → CarriesOut self.workers job s session (S.written out.old) (S.written out.new)) }
        ensures workers { IfOk result (λ session. session.workers ≡ self.workers) }
        ensures kept { IfOk result (λ session. kept_count session ≤ kept_count self) }
        ensures cause { IfErr result (λ fault. (s : State) → Shows self s
            → HasCommandCause fault self.workers job s (S.written out.old) (S.written out.new)) }
        ensures counted { S.faults out.new ≡ command_faults result (S.faults out.old) }
        ensures untouched { IfErr result (λ fault. IsLimitFault fault → out.new ≡ out.old) }
    {
        // For the proof alone.
        flush_ends_parts::<SessionPart>();
        let mut session = self;
        let mut buffer = RowBuffer::new(session.alloc);
        session.print_job(rt, job, out, &mut buffer)?;
        flush(out, &mut buffer)?;
        Ok(session)
    }

    /// Adds the traces of a batch of events, and writes the rows of the refused traces and the
    /// watch rows by day. After an error the session is gone.
    fn add<R: Threads + Sync, S: Sink, G: Gate + Sync>(
        self,
        rt: &R,
        events: EventParts,
        out: &mut S,
        gate: &G,
    ) -> Result<Session, CommandFault>
        requires ready { IsReady (jobs.Add events) }
        requires few { kept_count self + requests_in (jobs.Add events) < 2 ^ 32 }
        ensures carried { IfOk result (λ session. (s : State) → Shows self s
            → CarriesOut self.workers (jobs.Add events) s session (S.written out.old)
            (S.written out.new)) }
        ensures workers { IfOk result (λ session. session.workers ≡ self.workers) }
        ensures kept { IfOk result
            (λ session. kept_count session ≤ kept_count self + requests_in (jobs.Add events)) }
        ensures cause { IfErr result (λ fault. (s : State) → Shows self s
            → HasCommandCause fault self.workers (jobs.Add events) s (S.written out.old)
            (S.written out.new)) }
        ensures counted { S.faults out.new ≡ command_faults result (S.faults out.old) }
        ensures untouched { IfErr result (λ fault. IsLimitFault fault → out.new ≡ out.old) }
    {
        // For the proof alone.
        flush_ends_a_text();
        let mut buffer = RowBuffer::new(self.alloc);
        let added = self.add_batch(rt, events, gate)?;
        print_added(out, &mut buffer, &added.refused, &added.watched)?;
        flush(out, &mut buffer)?;
        Ok(added.session)
    }

    /// Carries out a job, and writes its text to `out`. Workers of an add may wait for the gate.
    /// After an error the session is gone, and a prefix of the text is written, or nothing.
    pub fn command<R: Threads + Sync, S: Sink, G: Gate + Sync>(
        self,
        rt: &R,
        job: Job,
        out: &mut S,
        gate: &G,
    ) -> Result<Session, CommandFault>
        requires ready { IsReady job }
        requires few { kept_count self + requests_in job < 2 ^ 32 }
        ensures carried { IfOk result (λ session. (s : State) → Shows self s
            → CarriesOut self.workers job s session (S.written out.old) (S.written out.new)) }
        ensures workers { IfOk result (λ session. session.workers ≡ self.workers) }
        ensures kept { IfOk result
            (λ session. kept_count session ≤ kept_count self + requests_in job) }
        ensures cause { IfErr result (λ fault. (s : State) → Shows self s
            → HasCommandCause fault self.workers job s (S.written out.old) (S.written out.new)) }
        ensures counted { S.faults out.new ≡ command_faults result (S.faults out.old) }

        // After the fault of a limit nothing was done to `out`.
        ensures untouched { IfErr result (λ fault. IsLimitFault fault → out.new ≡ out.old) }
    {
        match job {
            Job::Add { events } => self.add(rt, events, out, gate),
            job => self.carry_out(rt, job, out),
        }
    }
}
