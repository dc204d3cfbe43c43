ghost use Rattle.std.specs.Prelude.{◌≡◌, ◌≤◌, ◌<◌, ◌==◌, ◌⊎◌, ◌^◌, ◌++◌, List, [], ℕ, length};
ghost use Rattle.std.specs.Prelude.{if◌then◌else◌, IfOk, Some};
ghost use Rattle.mystery_io.specs.Counts.{counted_up};
ghost use Rattle.mystery_io.specs.Prefixes.{Sends};
ghost use Rattle.mystery_io.specs.ReadFaults.{files_seen};
ghost use Rattle.mystery_io.specs.Readings.{OnlyGrow};
ghost use Rattle.mystery_run.specs.declared.outcome.Outcome.{Outcome};
ghost use Rattle.mystery_run.specs.CommandLines.{all_files_of, call_of, files_of_action};
ghost use Rattle.mystery_run.specs.CommandLines.{given_in, preface_of_call};
ghost use Rattle.mystery_run.specs.Endings.{PassesFirst};
ghost use Rattle.mystery_run.specs.Messages.{status_of, message_of};
ghost use Rattle.mystery_run.specs.Runs.{run_seen, Explains, OfInputs};
ghost use Rattle.mystery_run.specs.Works.{PrefaceSaid, work_after, work_with};
ghost use Rattle.mystery_run.specs.inner.Actions.{IsInRange, call_file_count};
ghost use Rattle.mystery_run.specs.inner.GivenTables.{AreGiven, IsUsable};
ghost use Rattle.mystery_run.specs.inner.InputEnds.{InputEnds};
ghost use Rattle.mystery_run.specs.inner.Inputs.{IsInputOf, IsWithinLimit, form_of_action};
ghost use Rattle.mystery_run.specs.inner.Leaving.{LeavesFiles, LeavesSink};
ghost use Rattle.mystery_run.specs.inner.OutcomeFaults.{outcome_faults, outcome_read_faults};
ghost use Rattle.mystery_run.specs.inner.ParsedLines.{action_of, call_of_line};
ghost use Rattle.mystery_run.specs.inner.ReadingTwice.{said_by};

use crate::Outcome;
use crate::action::Action;
use crate::call_files::CallFiles;
use crate::command_line::CommandLine;
use crate::drill::run_drill;
use crate::forecast::run_forecast;
use crate::given_words::copy_given;
use crate::input::Input;
use crate::laws::an_input_has_one_ending;
use crate::preface::Preface;
use crate::readings::{Readings, read_both};
use crate::replay::replay_input;
use crate::session_run::run_session;
use certificates::ClaimList;
use digest_text::DigestTable;
use mystery_io::{Files, Gate, ReadFault, Sink, send_text};
use session::Job;
use std::alloc::Global;
use std::thread::Threads;
use trace_types::Text;

/// Does what the arguments ask for over an input that was read, under what these tables give, and
/// with the claims of a certificate.
fn perform_with<R: Threads + Sync, S: Sink, G: Gate + Sync>(
    rt: &R,
    alloc: Global,
    line: CommandLine<'_>,
    tables: Vec<DigestTable>,
    claims: ClaimList,
    input: Input,
    out: &mut S,
    gate: &G,
) -> Outcome
    requires some { 0 < line.workers }
    requires most { line.workers ≤ 64 }
    requires numbers { IsInRange (action_of line.action) }
    requires given { AreGiven tables.items }
    requires few { length claims < 2 ^ 32 }
    requires within { IsWithinLimit input }
    ensures ends { let call = call_of_line line.entry in
        (bytes : List ℕ) → IsInputOf (form_of_action call.action) input bytes
        → let said : PrefaceSaid = record { tables = tables.items; claims = claims } in
        InputEnds call.workers (work_with call.action said bytes) result
        (S.written out.old) (S.written out.new) }
    ensures leaves { LeavesSink result out.old out.new }
    ensures counted { S.faults out.new ≡ outcome_faults result (S.faults out.old) }
{
    let workers = line.workers;
    match line.action {
        Action::Session { .. } => run_session(rt, alloc, workers, tables, None, input, out, gate),
        Action::View { view, .. } => {
            let last = Job::Control {
                command: view.command(),
            };
            run_session(rt, alloc, workers, tables, Some(last), input, out, gate)
        }
        Action::WhatIf { change, .. } => {
            run_forecast(rt, alloc, workers, tables, change, input, out, gate)
        }
        Action::Tail { .. } => {
            let last = Job::Tail;
            run_session(rt, alloc, workers, tables, Some(last), input, out, gate)
        }
        Action::Why { .. } => {
            let last = Job::Why;
            run_session(rt, alloc, workers, tables, Some(last), input, out, gate)
        }
        Action::Verify { .. } => {
            let last = Job::Verify { claims };
            run_session(rt, alloc, workers, tables, Some(last), input, out, gate)
        }
        Action::Evidence { choice, .. } => {
            let last = Job::Evidence { choice };
            run_session(rt, alloc, workers, tables, Some(last), input, out, gate)
        }
        Action::Drill { number, traces } => {
            run_drill(rt, alloc, workers, tables, number, traces, out, gate)
        }
        Action::Replay { .. } => replay_input(alloc, input.bytes(), out),
    }
}

/// Does what the arguments ask for over what was read.
fn perform_over<R: Threads + Sync, S: Sink, G: Gate + Sync>(
    rt: &R,
    alloc: Global,
    line: CommandLine<'_>,
    readings: Readings,
    out: &mut S,
    gate: &G,
) -> Outcome
    requires some { 0 < line.workers }
    requires most { line.workers ≤ 64 }
    requires numbers { IsInRange (action_of line.action) }
    requires usable { IfOk (said_by readings.preface) IsUsable }
    requires within { IsWithinLimit readings.input }
    ensures ends { let call = call_of_line line.entry in
        (bytes : List ℕ) → IsInputOf (form_of_action call.action) readings.input bytes
        → InputEnds call.workers (work_after call.action (said_by readings.preface) bytes)
        result (S.written out.old) (S.written out.new) }
    ensures leaves { LeavesSink result out.old out.new }
    ensures counted { S.faults out.new ≡ outcome_faults result (S.faults out.old) }
{
    let Readings { preface, input } = readings;
    match preface {
        Preface::Said { tables, claims } => {
            perform_with(rt, alloc, line, tables, claims, input, out, gate)
        }
        Preface::Bad { line, why } => Outcome::BadLine { line, why },
    }
}

/// Does what the arguments ask for, of which these files are given, and tells how it ended.
fn perform_call<R: Threads + Sync, F: Files, S: Sink, G: Gate + Sync>(
    rt: &R,
    alloc: Global,
    words: &[Text],
    line: CommandLine<'_>,
    given: &[Text],
    files: &mut F,
    out: &mut S,
    gate: &G,
) -> Outcome
    requires known { Some (call_of_line line) ≡ call_of words.now }
    requires given { given.now ≡ given_in line.given.now }
    requires some { 0 < line.workers }
    requires most { line.workers ≤ 64 }
    requires few { call_file_count (call_of_line line) < 2 ^ 32 }
    requires numbers { IsInRange (action_of line.action) }
    ensures explains { Explains result (run_seen words.now
        (files_seen F.given F.opens files.old files.new)
        S.written out.old out.new) }
    ensures files { LeavesFiles result files.old files.new }
    ensures unread { preface_of_call (call_of_line line.entry)
        ++ files_of_action (action_of line.entry.action) ≡ [] → files.new ≡ files.old }
    ensures sink { LeavesSink result out.old out.new }
    ensures grows { OnlyGrow (F.given files.old) (F.given files.new) }
    ensures tallied { F.faults files.new ≡ outcome_read_faults result (F.faults files.old) }
    ensures counted { S.faults out.new ≡ outcome_faults result (S.faults out.old) }
{
    let form = line.action.form();
    let names = CallFiles {
        given,
        certificate: line.action.certificate(),
        input: line.action.files(),
    };
    match read_both(rt, alloc, line.workers, form, files, names) {
        Err(ReadFault::Memory) => Outcome::Memory,
        Err(ReadFault::File { index }) => Outcome::File { index },
        Err(ReadFault::TooBig) => Outcome::Size,
        Ok(readings) => perform_over(rt, alloc, line, readings, out, gate),
    }
}

/// Does what the arguments ask for, and tells how it ended.
fn perform<R: Threads + Sync, F: Files, S: Sink, G: Gate + Sync>(
    rt: &R,
    alloc: Global,
    words: &[Text],
    files: &mut F,
    out: &mut S,
    gate: &G,
) -> Outcome
    ensures explains { Explains result (run_seen words.now
        (files_seen F.given F.opens files.old files.new)
        S.written out.old out.new) }
    ensures files { LeavesFiles result files.old files.new }
    ensures unread { all_files_of words.now ≡ [] → files.new ≡ files.old }
    ensures sink { LeavesSink result out.old out.new }
    ensures grows { OnlyGrow (F.given files.old) (F.given files.new) }
    ensures tallied { F.faults files.new ≡ outcome_read_faults result (F.faults files.old) }
    ensures counted { S.faults out.new ≡ outcome_faults result (S.faults out.old) }
{
    let Some(line) = CommandLine::parse(words) else {
        return Outcome::Arguments;
    };
    let Ok(given) = copy_given(alloc, line.given) else {
        return Outcome::Memory;
    };
    perform_call(rt, alloc, words, line, &given, files, out, gate)
}

/// Runs the program: reads the files that the arguments `words` name, if any, what is given or the
/// certificate before the input, writes the text to `out`, and if it ends in another way a message
/// to `err`.
/// The result is the exit status. Workers of an add may wait for the gate.
///
/// 0: done. 1: out of memory. 2: the arguments are outside the grammar. 3: a line is bad. 4: a file
/// could not be read. 5: `out` could not be written. 6: the preface or the input is too big, or what
/// is given or an add passes a limit. A fault of `err` leaves the status as it is.
pub fn run<R: Threads + Sync, F: Files, S: Sink, E: Sink, G: Gate + Sync>(
    rt: &R,
    alloc: Global,
    words: &[Text],
    files: &mut F,
    out: &mut S,
    err: &mut E,
    gate: &G,
) -> u8
    // The outcome has its cause, wrote what it should, and its message is on `err`.
    ensures explained { (o : Outcome) × (result ≡ status_of o)
        × Explains o (run_seen words.now
        (files_seen F.given F.opens files.old files.new)
        S.written out.old out.new)
        × Sends E.written E.faults err.old err.new (message_of o) }

    // Faults are told, exactly: of the files with 4 alone, of `out` with 5 alone.
    ensures read_fault { F.faults files.new
        ≡ (if result == 4 then counted_up (F.faults files.old) else F.faults files.old) }
    ensures write_fault { S.faults out.new
        ≡ (if result == 5 then counted_up (S.faults out.old) else S.faults out.old) }

    // What stays as it was.
    ensures unread { all_files_of words.now ≡ [] → files.new ≡ files.old }
    ensures nothing { (result ≡ 2) ⊎ (result ≡ 3) ⊎ (result ≡ 4)
        ⊎ ((result ≡ 6)
        × OfInputs (files_seen F.given F.opens files.old files.new) words.now
        (PassesFirst words.now))
        → out.new ≡ out.old }
    ensures silent { result ≡ 0 → err.new ≡ err.old }
    ensures grows { OnlyGrow (F.given files.old) (F.given files.new) }
{
    // Its contract tells that a run that is over a limit of what is given ends in no other way.
    an_input_has_one_ending();
    let outcome = perform(rt, alloc, words, files, out, gate);
    send_text(err, outcome.message().as_str().as_bytes());
    outcome.status()
}
