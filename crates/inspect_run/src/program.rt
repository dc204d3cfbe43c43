ghost use Rattle.std.specs.Prelude.{◌≡◌, ◌≤◌, ◌<◌, ◌==◌, ◌⊎◌, ◌^◌, ◌+◌, ◌++◌, All, IfOk, OnOk};
ghost use Rattle.std.specs.Prelude.{if◌then◌else◌, length, not, true};
ghost use Rattle.event_lines.specs.GoodLines.{IsTimely};
ghost use Rattle.event_lines.specs.LineParts.{lines_of_runs};
ghost use Rattle.mystery_io.specs.Counts.{counted_up};
ghost use Rattle.mystery_io.specs.Prefixes.{Sends};
ghost use Rattle.mystery_io.specs.ReadFaults.{files_seen};
ghost use Rattle.mystery_io.specs.Readings.{OnlyGrow};
ghost use Rattle.inspect_run.specs.declared.outcome.Outcome.{Outcome};
ghost use Rattle.inspect_run.specs.declared.outcome.Outcome.TheVariants.{Done};
ghost use Rattle.inspect_run.specs.CommandLines.{is_in_grammar};
ghost use Rattle.inspect_run.specs.Endings.{Explains, run_seen};
ghost use Rattle.inspect_run.specs.Messages.{message_of, status_of};
ghost use Rattle.inspect_run.specs.inner.InputReadings.{file_faults_after};
ghost use Rattle.inspect_run.specs.inner.Leaving.{IsText, LeavesFiles, LeavesSink, WritesText};
ghost use Rattle.inspect_run.specs.inner.Leaving.{quality_text, sink_faults_after};

use crate::Outcome;
use crate::all_rows::push_all_rows;
use crate::command_line::are_files;
use crate::input_reading::{Judged, read_input};
use crate::line_counts::{count_events, count_lines};
use crate::line_rows::push_line_rows;
use crate::message::send_message;
use crate::traces::gather_traces;
use crate::workers::limit_on;
use mystery_io::{Files, Sink, write_text};
use std::alloc::{AllocError, Global};
use std::thread::Threads;
use trace_types::Text;

/// Appends the rows on lines of files with these names, which were judged.
fn push_lines(text: &mut Vec<u8>, words: &[Text], judged: &Judged) -> Result<(), AllocError>
    requires { length (lines_of_runs judged.now.runs.items)
        + length judged.now.findings.reasons.items < 2 ^ 31 }
    ensures { OnOk result (text.new.items ≡ text.old.items
        ++ quality_text words.now (lines_of_runs judged.now.runs.items) judged.now.findings) }
{
    let events = count_events(&judged.runs) as u64;
    let filled = count_lines(&judged.runs) as u64 + judged.findings.reasons.len() as u64;
    push_line_rows(text, words, events, filled, &judged.findings)
}

/// Makes the rows of files with these names, whose lines were judged.
fn make_text<R: Threads + Sync>(
    rt: &R,
    alloc: Global,
    words: &[Text],
    judged: Judged,
) -> Result<Vec<u8>, AllocError>
    requires few { length (lines_of_runs judged.runs.items)
        + length judged.findings.reasons.items < 2 ^ 31 }
    requires timely { All IsTimely (lines_of_runs judged.runs.items) }
    ensures { IfOk result (λ text.
        IsText words.now (lines_of_runs judged.runs.items) judged.findings text.items) }
{
    let mut text = Vec::new(alloc);
    push_lines(&mut text, words, &judged)?;
    let traces = gather_traces(&limit_on(rt), alloc, judged.runs)?;
    push_all_rows(rt, alloc, &mut text, &traces)?;
    Ok(text)
}

/// Writes the rows of files whose lines were judged, and tells how that ended.
fn write_quality<R: Threads + Sync, S: Sink>(
    rt: &R,
    alloc: Global,
    words: &[Text],
    judged: Judged,
    out: &mut S,
) -> Outcome
    requires few { length (lines_of_runs judged.runs.items)
        + length judged.findings.reasons.items < 2 ^ 31 }
    requires timely { All IsTimely (lines_of_runs judged.runs.items) }
    ensures writes { WritesText result
        (IsText words.now (lines_of_runs judged.runs.items) judged.findings)
        (S.written out.old) (S.written out.new) }
    ensures leaves { LeavesSink result out.old out.new }
    ensures counted { S.faults out.new ≡ sink_faults_after result (S.faults out.old) }
{
    let Ok(text) = make_text(rt, alloc, words, judged) else {
        return Outcome::Memory;
    };
    match write_text(out, &text) {
        Ok(()) => Outcome::Done,
        Err(_) => Outcome::Write,
    }
}

/// Reads the files of these names and writes the rows that tell their quality, and tells how that
/// ended.
fn read_and_write<R: Threads + Sync, F: Files, S: Sink>(
    rt: &R,
    alloc: Global,
    words: &[Text],
    files: &mut F,
    out: &mut S,
) -> Outcome
    requires called { is_in_grammar words.now ≡ true }
    requires few { length words.now < 2 ^ 30 }
    ensures explains { Explains result (run_seen words.now
        (files_seen F.given F.opens files.old files.new)
        S.written out.old out.new) }
    ensures files { LeavesFiles result files.old files.new }
    ensures sink { LeavesSink result out.old out.new }
    ensures grows { OnlyGrow (F.given files.old) (F.given files.new) }
    ensures tallied { F.faults files.new ≡ file_faults_after result (F.faults files.old) }
    ensures counted { S.faults out.new ≡ sink_faults_after result (S.faults out.old) }
{
    match read_input(rt, alloc, files, words) {
        Ok(judged) => write_quality(rt, alloc, words, judged, out),
        Err(outcome) => outcome,
    }
}

/// Does what the arguments ask for, and tells how it ended.
fn perform<R: Threads + Sync, F: Files, S: Sink>(
    rt: &R,
    alloc: Global,
    words: &[Text],
    files: &mut F,
    out: &mut S,
) -> Outcome
    ensures explains { Explains result (run_seen words.now
        (files_seen F.given F.opens files.old files.new)
        S.written out.old out.new) }
    ensures files { LeavesFiles result files.old files.new }
    ensures sink { LeavesSink result out.old out.new }
    ensures grows { OnlyGrow (F.given files.old) (F.given files.new) }
    ensures tallied { F.faults files.new ≡ file_faults_after result (F.faults files.old) }
    ensures counted { S.faults out.new ≡ sink_faults_after result (S.faults out.old) }
{
    if !are_files(words) {
        return Outcome::Arguments;
    }
    read_and_write(rt, alloc, words, files, out)
}

/// Runs `mystery inspect`: reads the files that the arguments `words` name, and writes rows to `out`
/// that tell the quality of the input. If it ends in another way a message goes to `err`. The result
/// is the exit status.
///
/// 0: done, whatever the rows say. 1: out of memory. 2: the arguments are outside the grammar. 4: a
/// file could not be read. 5: `out` could not be written. 6: the files are too big. A fault of `err`
/// leaves the status as it is. Nothing is written to `out` but with 0 and 5.
pub fn run<R: Threads + Sync, F: Files, S: Sink, E: Sink>(
    rt: &R,
    alloc: Global,
    words: &[Text],
    files: &mut F,
    out: &mut S,
    err: &mut E,
) -> u8
    // The outcome has its cause, wrote what it should, and its message is on `err`.
    ensures explained { (o : Outcome) × (result ≡ status_of o)
        × Explains o (run_seen words.now
        (files_seen F.given F.opens files.old files.new)
        S.written out.old out.new)
        × Sends E.written E.faults err.old err.new (message_of words.now o) }

    // Each status and its cause.
    ensures range { result ≤ 6 }
    ensures arguments { (result == 2) ≡ not (is_in_grammar words.now) }
    ensures done { result ≡ 0 → Explains Done (run_seen words.now
        (files_seen F.given F.opens files.old files.new)
        S.written out.old out.new) }
    ensures read_fault { F.faults files.new
        ≡ (if result == 4 then counted_up (F.faults files.old) else F.faults files.old) }
    ensures write_fault { S.faults out.new
        ≡ (if result == 5 then counted_up (S.faults out.old) else S.faults out.old) }

    // What stays as it was.
    ensures untouched { result ≡ 2 → files.new ≡ files.old }
    ensures nothing { (result ≡ 0) ⊎ ((result ≡ 5) ⊎ (out.new ≡ out.old)) }
    ensures silent { result ≡ 0 → err.new ≡ err.old }
    ensures grows { OnlyGrow (F.given files.old) (F.given files.new) }
{
    let outcome = perform(rt, alloc, words, files, out);
    send_message(err, words, outcome);
    outcome.status()
}
