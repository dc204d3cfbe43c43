ghost use Rattle.std.specs.Prelude.{◌≡◌, ◌<◌, ◌≤◌, ◌+◌, ◌++◌, ◌∷◌, ◌^◌, [], ℕ, List, IfErr, OnOk};
ghost use Rattle.std.specs.Prelude.{drop, false, length, take, true};
ghost use Rattle.event_lines.specs.Cut.{input_lines};
ghost use Rattle.mystery_io.specs.Readings.{Reading};
ghost use Rattle.line_split.specs.inner.Calls.{call_of_line};
ghost use Rattle.line_split.specs.Lines.{lines_from};
ghost use Rattle.line_split.specs.inner.Steps.{Carried, FileSplit, FileStop, FileStops, FilesSplit};
ghost use Rattle.line_split.specs.inner.Steps.{FilesStop, Fits, ReadsOn, all_split, read_faults};
ghost use Rattle.line_split.specs.inner.Steps.{Splits, write_faults};

use crate::carry::{Carry, last_line_feed};
use crate::chunk::split_chunk;
use crate::command_line::CommandLine;
use crate::judging::LONGEST;
use crate::pending::Pending;
use crate::{Reason, SplitFault};
use event_lines::laws::pieces_say_what_the_whole_says;
use mystery_io::Files;
use output_files::OutputFiles;
use std::alloc::Global;
use std::thread::Threads;
use trace_types::Text;

/// How many bytes are read at a time at most.
const PIECE: usize = 262_144;

/// Splits the lines that end in a piece of a file, whose last line feed is at `at`, and carries what
/// follows it.
fn split_ended<R: Threads + Sync, P: OutputFiles>(
    rt: &R,
    alloc: Global,
    outputs: &mut P,
    pending: &mut Pending,
    call: CommandLine<'_>,
    file: usize,
    carry: &mut Carry,
    piece: &[u8],
    at: usize,
) -> Result<(), SplitFault>
    requires fits { Fits (call_of_line call) (P.written outputs.old) pending.old }
    requires some { 0 < call.parts }
    requires most { call.parts ≤ 256 }
    requires few { file + 1 < 2 ^ 64 }
    requires within { at < length piece.now }
    requires cut { piece.now ≡ take at piece.now ++ 10 ∷ drop (at + 1) piece.now }
    ensures fits { OnOk result (Fits (call_of_line call.entry) (P.written outputs.new) pending.new) }
    ensures counted { P.faults outputs.new ≡ write_faults result (P.faults outputs.old) }
    ensures unread { (count : ℕ) → read_faults result count ≡ count }
    ensures rest { OnOk result (carry.new.rest.items ≡ drop (at + 1) piece.now) }
    ensures carried { OnOk result ((start : P) (before : Pending) (bytes : List ℕ)
        → Carried (call_of_line call.entry) file bytes P.written P.faults start outputs.old before
        pending.old carry.old.rest.items carry.old.number
        → Carried (call_of_line call.entry) file (bytes ++ piece.now) P.written P.faults start
        outputs.new before pending.new carry.new.rest.items carry.new.number) }
    ensures stops { IfErr result (λ fault. (start : P) (before : Pending) (bytes : List ℕ)
        → Carried (call_of_line call.entry) file bytes P.written P.faults start outputs.old before
        pending.old carry.old.rest.items carry.old.number
        → FileStops (call_of_line call.entry) file (bytes ++ piece.now) false P.written start
        outputs.new before fault) }
{
    // For the proof alone.
    pieces_say_what_the_whole_says();
    carry.rest.extend_from_slice(&piece[..at])?;
    carry.number = split_chunk(
        rt,
        alloc,
        outputs,
        pending,
        call,
        file,
        carry.number,
        &carry.rest,
    )?;
    carry.rest = Vec::from_slice(alloc, &piece[at + 1..])?;
    Ok(())
}

/// Takes a piece of a file: splits the lines that end in it, and carries the rest. What is carried
/// has no line feed, so only the piece is searched.
fn carry_on<R: Threads + Sync, P: OutputFiles>(
    rt: &R,
    alloc: Global,
    outputs: &mut P,
    pending: &mut Pending,
    call: CommandLine<'_>,
    file: usize,
    carry: &mut Carry,
    piece: &[u8],
) -> Result<(), SplitFault>
    requires fits { Fits (call_of_line call) (P.written outputs.old) pending.old }
    requires some { 0 < call.parts }
    requires most { call.parts ≤ 256 }
    requires few { file + 1 < 2 ^ 64 }
    requires one { input_lines carry.old.rest.items ≡ carry.old.rest.items ∷ [] }
    ensures fits { OnOk result (Fits (call_of_line call.entry) (P.written outputs.new) pending.new) }
    ensures counted { P.faults outputs.new ≡ write_faults result (P.faults outputs.old) }
    ensures unread { (count : ℕ) → read_faults result count ≡ count }
    ensures one { OnOk result (input_lines carry.new.rest.items ≡ carry.new.rest.items ∷ []) }
    ensures carried { OnOk result ((start : P) (before : Pending) (bytes : List ℕ)
        → Carried (call_of_line call.entry) file bytes P.written P.faults start outputs.old before
        pending.old carry.old.rest.items carry.old.number
        → Carried (call_of_line call.entry) file (bytes ++ piece.now) P.written P.faults start
        outputs.new before pending.new carry.new.rest.items carry.new.number) }
    ensures stops { IfErr result (λ fault. (start : P) (before : Pending) (bytes : List ℕ)
        → Carried (call_of_line call.entry) file bytes P.written P.faults start outputs.old before
        pending.old carry.old.rest.items carry.old.number
        → FileStops (call_of_line call.entry) file (bytes ++ piece.now) false P.written start
        outputs.new before fault) }
{
    let Some(at) = last_line_feed(piece) else {
        carry.rest.extend_from_slice(piece)?;
        return Ok(());
    };
    split_ended(rt, alloc, outputs, pending, call, file, carry, piece, at)
}

/// Takes a piece of a file as `carry_on` does, and tells where the line that is carried is too long.
fn take_piece<R: Threads + Sync, P: OutputFiles>(
    rt: &R,
    alloc: Global,
    outputs: &mut P,
    pending: &mut Pending,
    call: CommandLine<'_>,
    file: usize,
    carry: &mut Carry,
    piece: &[u8],
) -> Result<(), SplitFault>
    requires fits { Fits (call_of_line call) (P.written outputs.old) pending.old }
    requires some { 0 < call.parts }
    requires most { call.parts ≤ 256 }
    requires few { file + 1 < 2 ^ 64 }
    requires one { input_lines carry.old.rest.items ≡ carry.old.rest.items ∷ [] }
    ensures fits { OnOk result (Fits (call_of_line call.entry) (P.written outputs.new) pending.new) }
    ensures counted { P.faults outputs.new ≡ write_faults result (P.faults outputs.old) }
    ensures unread { (count : ℕ) → read_faults result count ≡ count }
    ensures one { OnOk result (input_lines carry.new.rest.items ≡ carry.new.rest.items ∷ []) }
    ensures carried { OnOk result ((start : P) (before : Pending) (bytes : List ℕ)
        → Carried (call_of_line call.entry) file bytes P.written P.faults start outputs.old before
        pending.old carry.old.rest.items carry.old.number
        → Carried (call_of_line call.entry) file (bytes ++ piece.now) P.written P.faults start
        outputs.new before pending.new carry.new.rest.items carry.new.number) }
    ensures stops { IfErr result (λ fault. (start : P) (before : Pending) (bytes : List ℕ)
        → Carried (call_of_line call.entry) file bytes P.written P.faults start outputs.old before
        pending.old carry.old.rest.items carry.old.number
        → FileStops (call_of_line call.entry) file (bytes ++ piece.now) false P.written start
        outputs.new before fault) }
{
    carry_on(rt, alloc, outputs, pending, call, file, carry, piece)?;
    if carry.rest.len() > LONGEST {
        return Err(SplitFault::BadLine {
            file,
            line: carry.number,
            why: Reason::TooLong,
        });
    }
    Ok(())
}

/// Reads the open file to its end, a piece at a time, and carries its last line.
fn read_pieces<R: Threads + Sync, F: Files, P: OutputFiles>(
    rt: &R,
    alloc: Global,
    files: &mut F,
    outputs: &mut P,
    pending: &mut Pending,
    call: CommandLine<'_>,
    file: usize,
    buffer: &mut [u8],
    carry: &mut Carry,
) -> Result<(), SplitFault>
    requires open { F.is_open files.old ≡ true }
    requires room { 0 < length buffer.old }
    requires fits { Fits (call_of_line call) (P.written outputs.old) pending.old }
    requires some { 0 < call.parts }
    requires most { call.parts ≤ 256 }
    requires few { file + 1 < 2 ^ 64 }
    requires one { input_lines carry.old.rest.items ≡ carry.old.rest.items ∷ [] }
    ensures room { length buffer.new ≡ length buffer.old }
    ensures fits { OnOk result (Fits (call_of_line call.entry) (P.written outputs.new) pending.new) }
    ensures counted { P.faults outputs.new ≡ write_faults result (P.faults outputs.old) }
    ensures tallied { F.faults files.new ≡ read_faults result (F.faults files.old) }
    ensures read { OnOk result ((start : P) (before : Pending) (first : List Reading) (name : List ℕ)
        → F.given files.old ≡ first ++ record { name = name; bytes = []; at_end = false } ∷ []
        → Carried (call_of_line call.entry) file [] P.written P.faults start outputs.old before
        pending.old carry.old.rest.items carry.old.number
        → ReadsOn (call_of_line call.entry) file first name P.written P.faults start outputs.new
        before pending.new (F.given files.new) carry.new.rest.items carry.new.number) }
    ensures stops { IfErr result (λ fault. (start : P) (before : Pending) (first : List Reading)
        (name : List ℕ)
        → F.given files.old ≡ first ++ record { name = name; bytes = []; at_end = false } ∷ []
        → Carried (call_of_line call.entry) file [] P.written P.faults start outputs.old before
        pending.old carry.old.rest.items carry.old.number
        → FileStop (call_of_line call.entry) file name P.written start outputs.new before
        first (F.given files.new) fault) }
{
    // A loop has to end, so this one ends after 2^64 - 1 pieces, which no file has.
    'pieces: for _piece in 0..u64::MAX {
        let Ok(count) = files.read(buffer) else {
            return Err(SplitFault::File { index: file });
        };
        if count == 0 {
            return Ok(());
        }
        take_piece(
            rt,
            alloc,
            outputs,
            pending,
            call,
            file,
            carry,
            &buffer[..count],
        )?;
    }
    Err(SplitFault::Memory)
}

/// Splits the lines of the open file.
fn split_open<R: Threads + Sync, F: Files, P: OutputFiles>(
    rt: &R,
    alloc: Global,
    files: &mut F,
    outputs: &mut P,
    pending: &mut Pending,
    call: CommandLine<'_>,
    file: usize,
    buffer: &mut [u8],
    carry: &mut Carry,
) -> Result<(), SplitFault>
    requires open { F.is_open files.old ≡ true }
    requires room { 0 < length buffer.old }
    requires fits { Fits (call_of_line call) (P.written outputs.old) pending.old }
    requires some { 0 < call.parts }
    requires most { call.parts ≤ 256 }
    requires few { file + 1 < 2 ^ 64 }
    requires none { carry.old.rest.items ≡ [] }
    requires first { carry.old.number ≡ 1 }
    ensures room { length buffer.new ≡ length buffer.old }
    ensures fits { OnOk result (Fits (call_of_line call.entry) (P.written outputs.new) pending.new) }
    ensures counted { P.faults outputs.new ≡ write_faults result (P.faults outputs.old) }
    ensures tallied { F.faults files.new ≡ read_faults result (F.faults files.old) }
    ensures split { OnOk result ((first : List Reading) (name : List ℕ)
        → F.given files.old ≡ first ++ record { name = name; bytes = []; at_end = false } ∷ []
        → FileSplit (call_of_line call.entry) file name P.written P.faults outputs.old outputs.new
        pending.old pending.new first (F.given files.new)) }
    ensures stops { IfErr result (λ fault. (first : List Reading) (name : List ℕ)
        → F.given files.old ≡ first ++ record { name = name; bytes = []; at_end = false } ∷ []
        → FileStop (call_of_line call.entry) file name P.written outputs.old outputs.new
        pending.old first (F.given files.new) fault) }
{
    read_pieces(
        rt, alloc, files, outputs, pending, call, file, buffer, carry,
    )?;
    split_chunk(
        rt,
        alloc,
        outputs,
        pending,
        call,
        file,
        carry.number,
        &carry.rest,
    )?;
    Ok(())
}

/// Splits the lines of the file with this index.
fn split_file<R: Threads + Sync, F: Files, P: OutputFiles>(
    rt: &R,
    alloc: Global,
    files: &mut F,
    outputs: &mut P,
    pending: &mut Pending,
    call: CommandLine<'_>,
    file: usize,
    name: &Text,
    buffer: &mut [u8],
) -> Result<(), SplitFault>
    requires room { 0 < length buffer.old }
    requires fits { Fits (call_of_line call) (P.written outputs.old) pending.old }
    requires some { 0 < call.parts }
    requires most { call.parts ≤ 256 }
    requires few { file + 1 < 2 ^ 64 }
    ensures room { length buffer.new ≡ length buffer.old }
    ensures fits { OnOk result (Fits (call_of_line call.entry) (P.written outputs.new) pending.new) }
    ensures counted { P.faults outputs.new ≡ write_faults result (P.faults outputs.old) }
    ensures tallied { F.faults files.new ≡ read_faults result (F.faults files.old) }
    ensures split { OnOk result (FileSplit (call_of_line call.entry) file name.now P.written P.faults
        outputs.old outputs.new pending.old pending.new (F.given files.old) (F.given files.new)) }
    ensures stops { IfErr result (FileStop (call_of_line call.entry) file name.now P.written
        outputs.old outputs.new pending.old (F.given files.old) (F.given files.new)) }
{
    if files.open(name.as_str()).is_err() {
        return Err(SplitFault::File { index: file });
    }
    let mut carry = Carry {
        rest: Vec::new(alloc),
        number: 1,
    };
    split_open(
        rt, alloc, files, outputs, pending, call, file, buffer, &mut carry,
    )
}

/// Splits the lines of all files of a call.
pub(crate) fn split_files<R: Threads + Sync, F: Files, P: OutputFiles>(
    rt: &R,
    alloc: Global,
    files: &mut F,
    outputs: &mut P,
    pending: &mut Pending,
    call: CommandLine<'_>,
    names: &[Text],
) -> Result<(), SplitFault>
    requires fits { Fits (call_of_line call) (P.written outputs.old) pending.old }
    requires some { 0 < call.parts }
    requires most { call.parts ≤ 256 }
    requires names { names.now ≡ call.files.now }
    ensures fits { OnOk result (Fits (call_of_line call.entry) (P.written outputs.new) pending.new) }
    ensures counted { P.faults outputs.new ≡ write_faults result (P.faults outputs.old) }
    ensures tallied { F.faults files.new ≡ read_faults result (F.faults files.old) }
    ensures split { OnOk result (FilesSplit (call_of_line call.entry) P.written P.faults outputs.old
        outputs.new pending.old pending.new (F.given files.old) (F.given files.new)) }
    ensures stops { IfErr result (FilesStop (call_of_line call.entry) P.written outputs.old
        outputs.new pending.old (F.given files.old) (F.given files.new)) }
{
    let mut buffer = vec![in alloc; 0; PIECE]?;
    let mut file = 0;
    'files: for name in names {
        split_file(
            rt,
            alloc,
            files,
            outputs,
            pending,
            call,
            file,
            name,
            &mut buffer,
        )?;
        file += 1;
    }
    Ok(())
}
