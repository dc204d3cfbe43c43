ghost use Rattle.std.specs.Prelude.{◌≡◌, ◌≤◌, ◌==◌, false, not};
ghost use Rattle.std.specs.Prelude.{if◌then◌else◌};
ghost use Rattle.mystery_io.specs.Counts.{counted_up};
ghost use Rattle.mystery_io.specs.Prefixes.{Sends};
ghost use Rattle.mystery_io.specs.ReadFaults.{files_seen};
ghost use Rattle.mystery_io.specs.Readings.{OnlyGrow};
ghost use Rattle.line_clean.specs.CommandLines.{is_in_grammar};
ghost use Rattle.line_clean.specs.Messages.{Outcome, message_of, status_of};
ghost use Rattle.line_clean.specs.Runs.{Explains, run_seen};
ghost use Rattle.line_clean.specs.inner.Steps.{read_faults, write_faults};

use crate::CleanFault;
use crate::clean_fault::status_of;
use crate::command_line::are_files;
use crate::message::send_message;
use crate::reading::clean_files;
use mystery_io::{Files, Sink};
use std::alloc::Global;
use std::thread::Threads;
use trace_types::Text;

/// Does what the arguments ask for, and tells how it ended.
fn perform<R: Threads + Sync, F: Files, S: Sink>(
    rt: &R,
    alloc: Global,
    words: &[Text],
    files: &mut F,
    out: &mut S,
) -> Result<(), CleanFault>
    ensures explains { Explains result (run_seen words.now
        (files_seen F.given F.opens files.old files.new) S.written out.old out.new) }
    ensures grows { OnlyGrow (F.given files.old) (F.given files.new) }
    ensures counted { S.faults out.new ≡ write_faults result (S.faults out.old) }
    ensures tallied { F.faults files.new ≡ read_faults result (F.faults files.old) }
    ensures untouched { is_in_grammar words.now ≡ false
        → (files.new ≡ files.old) × (out.new ≡ out.old) }
{
    if !are_files(words) {
        return Err(CleanFault::Arguments);
    }
    clean_files(rt, alloc, files, out, words)
}

/// Runs `mystery clean`: reads the files that the arguments `words` name one after another, and
/// writes their good lines to `out` as they stand, each ended by a line feed; blank and bad lines
/// are dropped. If it ends in another way a message goes to `err`. The result is the exit status.
/// What it holds in memory does not grow with the files.
///
/// 0: done. 1: out of memory. 2: the arguments are outside the grammar. 4: a file could not be
/// read. 5: `out` could not be written. A fault of `err` leaves the status as it is.
pub fn run<R: Threads + Sync, F: Files, S: Sink, E: Sink>(
    rt: &R,
    alloc: Global,
    words: &[Text],
    files: &mut F,
    out: &mut S,
    err: &mut E,
) -> u8
    // The outcome has its cause, wrote what it should, and its message is on `err`.
    ensures explained { (o : Outcome) × (result ≡ status_of o)
        × Explains o (run_seen words.now (files_seen F.given F.opens files.old files.new)
        S.written out.old out.new)
        × Sends E.written E.faults err.old err.new (message_of words.now o) }

    // Each status and its cause.
    ensures range { result ≤ 5 }
    ensures arguments { (result == 2) ≡ not (is_in_grammar words.now) }
    ensures read_fault { F.faults files.new
        ≡ (if result == 4 then counted_up (F.faults files.old) else F.faults files.old) }
    ensures write_fault { S.faults out.new
        ≡ (if result == 5 then counted_up (S.faults out.old) else S.faults out.old) }

    // What stays as it was.
    ensures untouched { result ≡ 2 → (files.new ≡ files.old) × (out.new ≡ out.old) }
    ensures silent { result ≡ 0 → err.new ≡ err.old }
    ensures grows { OnlyGrow (F.given files.old) (F.given files.new) }
{
    let outcome = perform(rt, alloc, words, files, out);
    send_message(err, words, outcome);
    status_of(outcome)
}
