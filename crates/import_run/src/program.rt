ghost use Rattle.std.specs.Prelude.{◌≡◌, ◌≤◌, ◌<◌, ◌==◌, ◌⊎◌, ◌^◌, ◌-◌, ℕ, length, not};
ghost use Rattle.std.specs.Prelude.{Some};
ghost use Rattle.std.specs.Prelude.{if◌then◌else◌};
ghost use Rattle.event_lines.specs.LineParts.{lines_of_runs};
ghost use Rattle.event_lines.specs.declared.why.Why.{Why as LineWhy};
ghost use Rattle.event_rewrite.specs.WithoutWaits.{without_waits};
ghost use Rattle.event_text.specs.LineTexts.{lines_text};
ghost use Rattle.mystery_io.specs.Counts.{counted_up};
ghost use Rattle.mystery_io.specs.Prefixes.{Sends};
ghost use Rattle.mystery_io.specs.ReadFaults.{files_seen};
ghost use Rattle.mystery_io.specs.Readings.{OnlyGrow};
ghost use Rattle.span_files.specs.declared.span_form.SpanForm.{SpanForm as AForm};
ghost use Rattle.span_files.specs.declared.span_place.SpanPlace.{SpanPlace as APlace};
ghost use Rattle.import_run.specs.declared.notes.Notes.{Notes as SomeNotes};
ghost use Rattle.import_run.specs.declared.outcome.Outcome.{Outcome as AnOutcome};
ghost use Rattle.import_run.specs.declared.outcome.Outcome.TheVariants.{BadLine, BadSpan, Done};
ghost use Rattle.import_run.specs.declared.span_reason.SpanReason.{SpanReason as AReason};
ghost use Rattle.import_run.specs.CommandLines.{Call as ACall, call_of, is_in_grammar};
ghost use Rattle.import_run.specs.declared.form.Form.TheVariants.{Events};
ghost use Rattle.import_run.specs.Endings.{Explains, run_seen};
ghost use Rattle.import_run.specs.Messages.{message_of, no_notes, status_of};
ghost use Rattle.import_run.specs.inner.InputReadings.{file_faults_after};
ghost use Rattle.import_run.specs.inner.Leaving.{LeavesFiles, LeavesSink, WritesText};
ghost use Rattle.import_run.specs.inner.Leaving.{sink_faults_after};

use crate::command_line::CommandLine;
use crate::input::Input;
use crate::input_reading::read_input;
use crate::span_writing::write_spans;
use crate::text_writing::write_all;
use crate::{Notes, Outcome};
use event_lines::LineRun;
use event_rewrite::rewrite;
use mystery_io::{Files, Sink, send_text};
use std::alloc::Global;
use std::thread::Threads;
use trace_types::Text;

/// Writes the lines of runs without waits, and tells how that ended.
fn write_lines<S: Sink>(alloc: Global, runs: &[LineRun], out: &mut S) -> Outcome
    requires { length (lines_of_runs runs.now) < 2 ^ 31 - 100 }
    ensures writes { WritesText result (lines_text (without_waits (lines_of_runs runs.now)))
        no_notes (S.written out.old) (S.written out.new) }
    ensures leaves { LeavesSink result out.old out.new }
    ensures counted { S.faults out.new ≡ sink_faults_after result (S.faults out.old) }
{
    let Ok(text) = rewrite(alloc, runs) else {
        return Outcome::Memory;
    };
    write_all(&text, Notes::none(), out)
}

/// Does what the arguments ask for, and tells how it ended.
fn perform<R: Threads + Sync, F: Files, S: Sink>(
    rt: &R,
    alloc: Global,
    words: &[Text],
    files: &mut F,
    out: &mut S,
) -> Outcome
    ensures explains { Explains result (run_seen words.now
        (files_seen F.given F.opens files.old files.new)
        S.written out.old out.new) }
    ensures files { LeavesFiles result files.old files.new }
    ensures sink { LeavesSink result out.old out.new }
    ensures grows { OnlyGrow (F.given files.old) (F.given files.new) }
    ensures tallied { F.faults files.new ≡ file_faults_after result (F.faults files.old) }
    ensures counted { S.faults out.new ≡ sink_faults_after result (S.faults out.old) }
{
    let Some(line) = CommandLine::parse(words) else {
        return Outcome::Arguments;
    };
    match read_input(rt, alloc, files, line.form, line.files) {
        Ok(Input::Lines { runs }) => write_lines(alloc, &runs, out),
        Ok(Input::Spans { form, spans }) => write_spans(alloc, form, line.asked, spans, out),
        Err(outcome) => outcome,
    }
}

/// Runs the program: reads the files that the arguments `words` name, or standard input, writes the
/// lines to `out`, and if it ends in another way, or there are notes on spans, a message to `err`.
/// The result is the exit status.
///
/// 0: done. 1: out of memory. 2: the arguments are outside the grammar. 3: a line or a span is bad.
/// 4: a file could not be read. 5: `out` could not be written. 6: the files are too big. A fault of
/// `err` leaves the status as it is. Nothing is written to `out` but with 0 and 5.
pub fn run<R: Threads + Sync, F: Files, S: Sink, E: Sink>(
    rt: &R,
    alloc: Global,
    words: &[Text],
    files: &mut F,
    out: &mut S,
    err: &mut E,
) -> u8
    // The outcome has its cause, wrote what it should, and its message is on `err`.
    ensures explained { (o : AnOutcome) × (result ≡ status_of o)
        × Explains o (run_seen words.now
        (files_seen F.given F.opens files.old files.new)
        S.written out.old out.new)
        × Sends E.written E.faults err.old err.new (message_of o) }

    // Each status and its cause.
    ensures range { result ≤ 6 }
    ensures arguments { (result == 2) ≡ not (is_in_grammar words.now) }
    ensures done { result ≡ 0 → (notes : SomeNotes) × Explains (Done notes) (run_seen words.now
        (files_seen F.given F.opens files.old files.new)
        S.written out.old out.new)
        × Sends E.written E.faults err.old err.new (message_of (Done notes)) }
    ensures bad { result ≡ 3 → ((file line : ℕ) × (why : LineWhy)
        × Explains (BadLine file line why) (run_seen words.now
        (files_seen F.given F.opens files.old files.new)
        S.written out.old out.new)
        × Sends E.written E.faults err.old err.new (message_of (BadLine file line why)))
        ⊎ ((form : AForm) × (at : APlace) × (reason : AReason)
        × Explains (BadSpan form at reason) (run_seen words.now
        (files_seen F.given F.opens files.old files.new)
        S.written out.old out.new)
        × Sends E.written E.faults err.old err.new (message_of (BadSpan form at reason))) }
    ensures read_fault { F.faults files.new
        ≡ (if result == 4 then counted_up (F.faults files.old) else F.faults files.old) }
    ensures write_fault { S.faults out.new
        ≡ (if result == 5 then counted_up (S.faults out.old) else S.faults out.old) }

    // What stays as it was.
    ensures untouched { result ≡ 2 → files.new ≡ files.old }
    ensures nothing { (result ≡ 0) ⊎ ((result ≡ 5) ⊎ (out.new ≡ out.old)) }
    ensures silent { result ≡ 0 → (call : ACall) → call_of words.now ≡ Some call
        → call.form ≡ Events → err.new ≡ err.old }
    ensures grows { OnlyGrow (F.given files.old) (F.given files.new) }
{
    let outcome = perform(rt, alloc, words, files, out);
    send_text(err, outcome.message().as_str().as_bytes());
    outcome.status()
}
