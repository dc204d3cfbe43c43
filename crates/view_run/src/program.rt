ghost use Rattle.std.specs.Prelude.{◌≡◌, ◌≤◌, ◌<◌, ◌==◌, ◌⊎◌, ◌^◌, ℕ, length, not, true};
ghost use Rattle.std.specs.Prelude.{if◌then◌else◌};
ghost use Rattle.mystery_io.specs.Counts.{counted_up};
ghost use Rattle.mystery_io.specs.Prefixes.{Sends};
ghost use Rattle.mystery_io.specs.ReadFaults.{files_seen};
ghost use Rattle.mystery_io.specs.Readings.{OnlyGrow};
ghost use Rattle.page_rows.specs.declared.why.Why.{Why};
ghost use Rattle.view_run.specs.declared.outcome.Outcome.{Outcome};
ghost use Rattle.view_run.specs.declared.outcome.Outcome.TheVariants.{BadLine, Done};
ghost use Rattle.view_run.specs.CommandLines.{is_in_grammar, page_name};
ghost use Rattle.view_run.specs.Endings.{Explains, run_seen};
ghost use Rattle.view_run.specs.Messages.{message_of, status_of};
ghost use Rattle.view_run.specs.inner.Leaving.{Draws, LeavesFiles, LeavesSink, file_faults_after};
ghost use Rattle.view_run.specs.inner.Leaving.{sink_faults_after};

use crate::Outcome;
use crate::command_line::{are_page, page_name};
use crate::message::send_message;
use mystery_io::{Files, Sink, write_text};
use page_rows::PageError;
use std::alloc::Global;
use trace_types::Text;
use view_page::view_rows;
use whole_files::{FileReadFault, read_file};

/// The most bytes that the file of rows may have.
const MAX_INPUT: usize = 67_108_864;

/// Draws the page of these rows and writes it, and tells how that ended.
fn draw_and_write<S: Sink>(alloc: Global, rows: &[u8], out: &mut S) -> Outcome
    requires { length rows.now < 2 ^ 31 }
    ensures draws { Draws result rows.now (S.written out.old) (S.written out.new) }
    ensures leaves { LeavesSink result out.old out.new }
    ensures counted { S.faults out.new ≡ sink_faults_after result (S.faults out.old) }
{
    match view_rows(alloc, rows) {
        Err(PageError::Memory) => Outcome::Memory,
        Err(PageError::Bad { line, why }) => Outcome::BadLine { line, why },
        Ok(page) => match write_text(out, &page) {
            Ok(()) => Outcome::Done,
            Err(_) => Outcome::Write,
        },
    }
}

/// Reads the rows in the file of this name, draws their page and writes it, and tells how that
/// ended.
fn read_and_draw<F: Files, S: Sink>(
    alloc: Global,
    words: &[Text],
    files: &mut F,
    out: &mut S,
) -> Outcome
    requires { is_in_grammar words.now ≡ true }
    ensures explains { Explains result (run_seen words.now
        (files_seen F.given F.opens files.old files.new) S.written out.old out.new) }
    ensures files { LeavesFiles result files.old files.new }
    ensures sink { LeavesSink result out.old out.new }
    ensures grows { OnlyGrow (F.given files.old) (F.given files.new) }
    ensures tallied { F.faults files.new ≡ file_faults_after result (F.faults files.old) }
    ensures counted { S.faults out.new ≡ sink_faults_after result (S.faults out.old) }
{
    match read_file(alloc, files, page_name(words), MAX_INPUT) {
        Err(FileReadFault::Memory) => Outcome::Memory,
        Err(FileReadFault::Failed) => Outcome::File,
        Err(FileReadFault::TooBig) => Outcome::Size,
        Ok(rows) => draw_and_write(alloc, &rows, out),
    }
}

/// Does what the arguments ask for, and tells how it ended.
fn perform<F: Files, S: Sink>(alloc: Global, words: &[Text], files: &mut F, out: &mut S) -> Outcome
    ensures explains { Explains result (run_seen words.now
        (files_seen F.given F.opens files.old files.new) S.written out.old out.new) }
    ensures files { LeavesFiles result files.old files.new }
    ensures sink { LeavesSink result out.old out.new }
    ensures grows { OnlyGrow (F.given files.old) (F.given files.new) }
    ensures tallied { F.faults files.new ≡ file_faults_after result (F.faults files.old) }
    ensures counted { S.faults out.new ≡ sink_faults_after result (S.faults out.old) }
{
    if !are_page(words) {
        return Outcome::Arguments;
    }
    read_and_draw(alloc, words, files, out)
}

/// Runs `mystery view`: reads the rows of a page from the file that the arguments `words` name, or
/// from standard input where they name none, and writes the page to `out`. If it ends in another way
/// a message goes to `err`. The result is the exit status.
///
/// 0: done. 1: out of memory. 2: the arguments are outside the grammar. 3: a line is bad. 4: the
/// file could not be read. 5: `out` could not be written. 6: the file is too big. A fault of `err`
/// leaves the status as it is. Nothing is written to `out` but with 0 and 5.
pub fn run<F: Files, S: Sink, E: Sink>(
    alloc: Global,
    words: &[Text],
    files: &mut F,
    out: &mut S,
    err: &mut E,
) -> u8
    // The outcome has its cause, wrote what it should, and its message is on `err`.
    ensures explained { (o : Outcome) × (result ≡ status_of o)
        × Explains o (run_seen words.now
        (files_seen F.given F.opens files.old files.new) S.written out.old out.new)
        × Sends E.written E.faults err.old err.new (message_of words.now o) }

    // Each status and its cause.
    ensures range { result ≤ 6 }
    ensures arguments { (result == 2) ≡ not (is_in_grammar words.now) }
    ensures done { result ≡ 0 → Explains Done (run_seen words.now
        (files_seen F.given F.opens files.old files.new) S.written out.old out.new) }
    ensures bad { result ≡ 3 → (line : ℕ) × (why : Why) × Explains (BadLine line why)
        (run_seen words.now
        (files_seen F.given F.opens files.old files.new) S.written out.old out.new) }
    ensures read_fault { F.faults files.new
        ≡ (if result == 4 then counted_up (F.faults files.old) else F.faults files.old) }
    ensures write_fault { S.faults out.new
        ≡ (if result == 5 then counted_up (S.faults out.old) else S.faults out.old) }

    // What stays as it was.
    ensures untouched { result ≡ 2 → files.new ≡ files.old }
    ensures nothing { (result ≡ 0) ⊎ ((result ≡ 5) ⊎ (out.new ≡ out.old)) }
    ensures silent { result ≡ 0 → err.new ≡ err.old }
    ensures grows { OnlyGrow (F.given files.old) (F.given files.new) }
{
    let outcome = perform(alloc, words, files, out);
    send_message(err, words, outcome);
    outcome.status()
}
