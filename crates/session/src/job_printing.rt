ghost use Rattle.std.specs.Prelude.{◌≡◌, ◌≤◌};
ghost use Rattle.session_rules.specs.Jobs.{IsNoAdd};
ghost use Rattle.session_rules.specs.declared.job.Job.TheVariants as jobs;
ghost use Rattle.session_rules.specs.ReadyJobs.{IsReady, IsReadyCommand};
ghost use Rattle.session.specs.inner.Steps.{IsJudgedJob, IsView, PrintsSteps};
ghost use Rattle.text_rows.specs.Printing.{print_faults};
ghost use Rattle.session.specs.Carrying.{kept_count};

use crate::{Job, Session};
use book_laws::laws::names_are_listed;
use certificate_rows::laws::{claims_have_verdicts, refutations_are_listed};
use certificate_rows::{print_certificate, print_verdicts};
use event_lines::Command;
use evidence_printing::print_evidence;
use mystery_io::Sink;
use session_rules::SessionPart;
use std::thread::Threads;
use text_rows::laws::parts_follow;
use text_rows::{PrintFault, RowBuffer};
use trace_rows::{print_graphs, print_paths, print_slacks};
use view_rows::{
    print_digest, print_forecasts, print_model, print_report, print_summary, print_tail,
};
use worker_limit::WorkerLimit;

impl Session {
    /// Returns a runtime with the session's number of workers.
    fn limit_on<'r, R>(&self, rt: &'r R) -> WorkerLimit<'r, R>
        ensures { result.most ≡ self.now.workers }
    {
        WorkerLimit {
            runtime: rt,
            most: self.workers,
        }
    }

    /// Prints a view of the kept traces, judged together with the given digest.
    fn print_view<R: Threads + Sync, S: Sink>(
        &self,
        workers: &WorkerLimit<'_, R>,
        command: Command,
        sink: &mut S,
        buffer: &mut RowBuffer,
    ) -> Result<(), PrintFault>
        requires { IsView command }
        ensures stepped { PrintsSteps S.written S.faults result sink.old sink.new
            (jobs.Control command) self.now self.now buffer.old buffer.new }
        ensures counted { S.faults sink.new ≡ print_faults result (S.faults sink.old) }
    {
        // For the proof alone.
        parts_follow::<SessionPart>();
        names_are_listed();
        let judged = self.judge()?;
        match command {
            Command::Model => print_model(self.alloc, &judged, sink, buffer),
            Command::Paths => print_paths(workers, self.alloc, &judged, sink, buffer),
            Command::Slack => print_slacks(workers, self.alloc, &judged, sink, buffer),
            Command::Report => print_report(workers, self.alloc, &judged, sink, buffer),
            Command::Graph => print_graphs(workers, self.alloc, &judged, sink, buffer),
            Command::Summarize => print_digest(self.alloc, &judged, sink, buffer),
            _ => unreachable!(),
        }
    }

    /// Carries out the command of a control line, and prints its text.
    fn print_command<R: Threads + Sync, S: Sink>(
        &mut self,
        workers: &WorkerLimit<'_, R>,
        command: Command,
        sink: &mut S,
        buffer: &mut RowBuffer,
    ) -> Result<(), PrintFault>
        requires { IsReadyCommand command }
        ensures stepped { PrintsSteps S.written S.faults result sink.old sink.new
            (jobs.Control command) self.old self.new buffer.old buffer.new }
        ensures workers { self.new.workers ≡ self.old.workers }
        ensures kept { kept_count self.new ≤ kept_count self.old }
        ensures counted { S.faults sink.new ≡ print_faults result (S.faults sink.old) }
    {
        // For the proof alone.
        parts_follow::<SessionPart>();
        match command {
            Command::Add => unreachable!(),
            Command::Drop { day } => self.drop_day(day, sink, buffer),
            Command::Keep { days } => self.keep_newest(days, sink, buffer),
            Command::Watch { every } => {
                self.set_watch(every);
                Ok(())
            }
            Command::Grace { micros } => {
                self.set_grace(micros);
                Ok(())
            }
            view => self.print_view(workers, view, sink, buffer),
        }
    }

    /// Prints the text of a job in which the kept traces are judged together with the given digest.
    fn print_judged<R: Threads + Sync, S: Sink>(
        &self,
        workers: &WorkerLimit<'_, R>,
        job: Job,
        sink: &mut S,
        buffer: &mut RowBuffer,
    ) -> Result<(), PrintFault>
        requires ready { IsReady job }
        requires judged { IsJudgedJob job }
        ensures stepped { PrintsSteps S.written S.faults result sink.old sink.new job self.now
            self.now buffer.old buffer.new }
        ensures counted { S.faults sink.new ≡ print_faults result (S.faults sink.old) }
    {
        // For the proof alone.
        parts_follow::<SessionPart>();
        names_are_listed();
        let judged = self.judge()?;
        match job {
            Job::Summary => print_summary(workers, self.alloc, &judged, sink, buffer),
            Job::WhatIf { change } => {
                print_forecasts(workers, self.alloc, &judged, &change, sink, buffer)
            }
            Job::Tail => print_tail(workers, self.alloc, &judged, sink, buffer),
            _ => unreachable!(),
        }
    }

    /// Carries out a job other than an add, and prints its text.
    pub(crate) fn print_job<R: Threads + Sync, S: Sink>(
        &mut self,
        rt: &R,
        job: Job,
        sink: &mut S,
        buffer: &mut RowBuffer,
    ) -> Result<(), PrintFault>
        requires ready { IsReady job }
        requires no_add { IsNoAdd job }
        ensures stepped { PrintsSteps S.written S.faults result sink.old sink.new job self.old
            self.new buffer.old buffer.new }
        ensures workers { self.new.workers ≡ self.old.workers }
        ensures kept { kept_count self.new ≤ kept_count self.old }
        ensures counted { S.faults sink.new ≡ print_faults result (S.faults sink.old) }
    {
        // For the proof alone.
        refutations_are_listed();
        claims_have_verdicts();
        let workers = self.limit_on(rt);
        match job {
            Job::Add { .. } => unreachable!(),
            Job::Control { command } => self.print_command(&workers, command, sink, buffer),
            Job::Why => print_certificate(self.alloc, &self.book, sink, buffer),
            Job::Verify { claims } => print_verdicts(&self.book, claims.items(), sink, buffer),
            Job::Evidence { choice } => {
                print_evidence(&workers, self.alloc, &self.book, choice, sink, buffer)
            }
            job => self.print_judged(&workers, job, sink, buffer),
        }
    }
}
