ghost use Rattle.std.specs.Prelude.{◌≡◌, ◌<◌, ◌≤◌, ◌==◌, ◌++◌, [], List, None, drop, length, not};
ghost use Rattle.std.specs.Prelude.{if◌then◌else◌};
ghost use Rattle.output_files.specs.Written.{WrittenFile};
ghost use Rattle.mystery_io.specs.Counts.{counted_up};
ghost use Rattle.mystery_io.specs.Prefixes.{Sends};
ghost use Rattle.mystery_io.specs.Readings.{OnlyGrow};
ghost use Rattle.line_split.specs.CommandLines.{call_of, is_in_grammar};
ghost use Rattle.line_split.specs.Messages.{Outcome, message_of, status_of};
ghost use Rattle.line_split.specs.inner.Calls.{call_of_line};
ghost use Rattle.line_split.specs.inner.Pending.{Tells};
ghost use Rattle.line_split.specs.inner.Steps.{CallRuns, Fits, read_faults, write_faults};
ghost use Rattle.line_split.specs.Runs.{RunExplains, run_seen};

use crate::SplitFault;
use crate::command_line::CommandLine;
use crate::making::make_files;
use crate::message::send_message;
use crate::pending::{Pending, flush_all};
use crate::reading::split_files;
use crate::split_fault::status_of;
use mystery_io::{Files, Sink};
use output_files::OutputFiles;
use std::alloc::Global;
use std::thread::Threads;
use trace_types::Text;

/// Splits the files of a call into the files that were made for it.
fn split_into<R: Threads + Sync, F: Files, P: OutputFiles>(
    rt: &R,
    alloc: Global,
    files: &mut F,
    outputs: &mut P,
    pending: &mut Pending,
    call: CommandLine<'_>,
) -> Result<(), SplitFault>
    requires fits { Fits (call_of_line call) (P.written outputs.old) pending.old }
    requires some { 0 < call.parts }
    requires most { call.parts ≤ 256 }
    ensures runs { (before : List WrittenFile)
        → Tells (call_of_line call.entry) before [] (P.written outputs.old) pending.old
        → CallRuns (call_of_line call.entry) (F.given files.old) (F.given files.new)
        before (P.written outputs.new) result }
    ensures counted { P.faults outputs.new ≡ write_faults result (P.faults outputs.old) }
    ensures tallied { F.faults files.new ≡ read_faults result (F.faults files.old) }
{
    split_files(rt, alloc, files, outputs, pending, call, call.files)?;
    flush_all(outputs, pending)
}

/// Makes the files of a call, and splits its files into them.
fn split<R: Threads + Sync, F: Files, P: OutputFiles>(
    rt: &R,
    alloc: Global,
    files: &mut F,
    outputs: &mut P,
    call: CommandLine<'_>,
) -> Result<(), SplitFault>
    requires some { 0 < call.parts }
    requires most { call.parts ≤ 256 }
    ensures runs { CallRuns (call_of_line call.entry) (F.given files.old) (F.given files.new)
        (P.written outputs.old) (P.written outputs.new) result }
    ensures counted { P.faults outputs.new ≡ write_faults result (P.faults outputs.old) }
    ensures tallied { F.faults files.new ≡ read_faults result (F.faults files.old) }
{
    let mut pending = make_files(alloc, outputs, call)?;
    split_into(rt, alloc, files, outputs, &mut pending, call)
}

/// Does what the arguments ask for, and tells how it ended.
fn perform<R: Threads + Sync, F: Files, P: OutputFiles>(
    rt: &R,
    alloc: Global,
    words: &[Text],
    files: &mut F,
    outputs: &mut P,
) -> Result<(), SplitFault>
    ensures explains { RunExplains
        (run_seen words.now F.given files.old files.new P.written outputs.old outputs.new) result }
    ensures grows { OnlyGrow (F.given files.old) (F.given files.new) }
    ensures makes { P.written outputs.new
        ≡ P.written outputs.old ++ drop (length (P.written outputs.old)) (P.written outputs.new) }
    ensures counted { P.faults outputs.new ≡ write_faults result (P.faults outputs.old) }
    ensures tallied { F.faults files.new ≡ read_faults result (F.faults files.old) }
    ensures untouched { call_of words.now ≡ None
        → (files.new ≡ files.old) × (outputs.new ≡ outputs.old) }
{
    let Some(call) = CommandLine::parse(words) else {
        return Err(SplitFault::Arguments);
    };
    split(rt, alloc, files, outputs, call)
}

/// Runs `mystery split`: reads the files that the arguments `words` name one after another, writes
/// each event line to one of the parts, and where it comes from to the origins of that part. If it
/// ends in another way a message goes to `err`. The result is the exit status. What it holds in
/// memory does not grow with the files.
///
/// 0: done. 1: out of memory. 2: the arguments are outside the grammar. 3: a line is bad. 4: a file
/// could not be read. 5: a file could not be made or written. A fault of `err` leaves the status as
/// it is.
pub fn run<R: Threads + Sync, F: Files, P: OutputFiles, E: Sink>(
    rt: &R,
    alloc: Global,
    words: &[Text],
    files: &mut F,
    outputs: &mut P,
    err: &mut E,
) -> u8
    // The outcome has its cause, the files have what they should, and its message is on `err`.
    ensures explained { (o : Outcome) × (result ≡ status_of o)
        × RunExplains
        (run_seen words.now F.given files.old files.new P.written outputs.old outputs.new) o
        × Sends E.written E.faults err.old err.new (message_of words.now o) }

    // Each status and its cause.
    ensures range { result ≤ 5 }
    ensures arguments { (result == 2) ≡ not (is_in_grammar words.now) }
    ensures read_fault { F.faults files.new
        ≡ (if result == 4 then counted_up (F.faults files.old) else F.faults files.old) }
    ensures write_fault { P.faults outputs.new
        ≡ (if result == 5 then counted_up (P.faults outputs.old) else P.faults outputs.old) }

    // What stays as it was.
    ensures untouched { result ≡ 2 → (files.new ≡ files.old) × (outputs.new ≡ outputs.old) }
    ensures silent { result ≡ 0 → err.new ≡ err.old }
    ensures grows { OnlyGrow (F.given files.old) (F.given files.new) }
    ensures makes { P.written outputs.new
        ≡ P.written outputs.old ++ drop (length (P.written outputs.old)) (P.written outputs.new) }
{
    let outcome = perform(rt, alloc, words, files, outputs);
    send_message(err, words, outcome);
    status_of(outcome)
}
