ghost use Rattle.std.specs.Prelude.{◌≡◌, ◌<◌, ◌≤◌, ◌++◌, ◌∷◌, [], ℕ, List, IfErr, OnErr, OnOk};
ghost use Rattle.std.specs.Prelude.{Option, false, length, true};
ghost use Rattle.std.specs.Io.KnownBytes.{append_known};
ghost use Rattle.event_lines.specs.Cut.{input_lines};
ghost use Rattle.mystery_io.specs.Counts.{counted_up};
ghost use Rattle.mystery_io.specs.Input.{input_limit};
ghost use Rattle.mystery_io.specs.Prefixes.{AppendsPrefix};
ghost use Rattle.mystery_io.specs.ReadFaults.{files_seen};
ghost use Rattle.mystery_io.specs.Readings.{OnlyGrow, Reading};
ghost use Rattle.line_clean.specs.CommandLines.{is_in_grammar};
ghost use Rattle.line_clean.specs.Lines.{clean_text};
ghost use Rattle.line_clean.specs.Runs.{Explains, run_seen};
ghost use Rattle.line_clean.specs.inner.Carrying.{IsCarry};
ghost use Rattle.line_clean.specs.inner.Steps.{Carries, FileCleaned, FileStops, IsFaultOf, ReadsOn};
ghost use Rattle.line_clean.specs.inner.Steps.{read_faults, write_faults};

use crate::CleanFault;
use crate::carry::Carry;
use crate::pieces::{end_line, take_piece};
use mystery_io::{Files, Sink, write_text};
use std::alloc::Global;
use std::thread::Threads;
use trace_types::Text;

/// How many bytes are read at a time at most.
const PIECE: usize = 262_144;

/// Takes a piece of a file, and writes the good ones of the lines that end in it.
fn clean_piece<R: Threads + Sync, S: Sink>(
    rt: &R,
    alloc: Global,
    out: &mut S,
    carry: &mut Carry,
    piece: &[u8],
) -> Result<(), CleanFault>
    requires short { length piece.now ≤ input_limit }
    requires carry { IsCarry carry.old }
    ensures carry { OnOk result (IsCarry carry.new) }
    ensures carries { OnOk result ((start : Option (List ℕ)) (bytes : List ℕ)
        → Carries start (S.written out.old) bytes carry.old
        → Carries start (S.written out.new) (bytes ++ piece.now) carry.new) }
    ensures prefix { OnErr result ((start : Option (List ℕ)) (bytes : List ℕ)
        → Carries start (S.written out.old) bytes carry.old
        → AppendsPrefix start (S.written out.new)
        (clean_text (input_lines (bytes ++ piece.now)))) }
    ensures cause { IfErr result (λ fault. (index : ℕ) → IsFaultOf index fault) }
    ensures counted { S.faults out.new ≡ write_faults result (S.faults out.old) }
    ensures unread { (count : ℕ) → read_faults result count ≡ count }
{
    let mut text = Vec::new(alloc);
    take_piece(rt, alloc, carry, piece, &mut text)?;
    write_text(out, &text)?;
    Ok(())
}

/// Ends a file: writes its last line, which no line feed ends, where it is good.
fn end_file<R: Threads + Sync, S: Sink>(
    rt: &R,
    alloc: Global,
    out: &mut S,
    carry: &mut Carry,
) -> Result<(), CleanFault>
    requires { IsCarry carry.old }
    ensures written { OnOk result ((start : Option (List ℕ)) (bytes : List ℕ)
        → Carries start (S.written out.old) bytes carry.old
        → S.written out.new ≡ append_known start (clean_text (input_lines bytes))) }
    ensures prefix { OnErr result ((start : Option (List ℕ)) (bytes : List ℕ)
        → Carries start (S.written out.old) bytes carry.old
        → AppendsPrefix start (S.written out.new) (clean_text (input_lines bytes))) }
    ensures cause { IfErr result (λ fault. (index : ℕ) → IsFaultOf index fault) }
    ensures counted { S.faults out.new ≡ write_faults result (S.faults out.old) }
    ensures unread { (count : ℕ) → read_faults result count ≡ count }
{
    let mut text = Vec::new(alloc);
    end_line(rt, alloc, carry, &mut text)?;
    write_text(out, &text)?;
    Ok(())
}

/// Reads the open file to its end, a piece at a time, and carries its last line.
fn read_pieces<R: Threads + Sync, F: Files, S: Sink>(
    rt: &R,
    alloc: Global,
    files: &mut F,
    out: &mut S,
    index: usize,
    buffer: &mut [u8],
    carry: &mut Carry,
) -> Result<(), CleanFault>
    requires open { F.is_open files.old ≡ true }
    requires room { 0 < length buffer.old }
    requires short { length buffer.old ≤ input_limit }
    requires carry { IsCarry carry.old }
    ensures room { length buffer.new ≡ length buffer.old }
    ensures carry { OnOk result (IsCarry carry.new) }
    ensures read { OnOk result ((start : Option (List ℕ)) (first : List Reading) (name : List ℕ)
        → F.given files.old ≡ first ++ record { name = name; bytes = []; at_end = false } ∷ []
        → Carries start (S.written out.old) [] carry.old
        → ReadsOn name first start (S.written out.new) (F.given files.new) carry.new) }
    ensures stops { OnErr result ((start : Option (List ℕ)) (first : List Reading) (name : List ℕ)
        → F.given files.old ≡ first ++ record { name = name; bytes = []; at_end = false } ∷ []
        → Carries start (S.written out.old) [] carry.old
        → FileStops name start (S.written out.new) first (F.given files.new)) }
    ensures cause { IfErr result (IsFaultOf index) }
    ensures opens { F.opens files.new ≡ F.opens files.old }
    ensures counted { S.faults out.new ≡ write_faults result (S.faults out.old) }
    ensures tallied { F.faults files.new ≡ read_faults result (F.faults files.old) }
{
    // A loop has to end, so this one ends after 2^64 - 1 pieces, which no file has.
    'pieces: for _piece in 0..u64::MAX {
        let Ok(count) = files.read(buffer) else {
            return Err(CleanFault::File { index });
        };
        if count == 0 {
            return Ok(());
        }
        clean_piece(rt, alloc, out, carry, &buffer[..count])?;
    }
    Err(CleanFault::Memory)
}

/// Cleans the open file.
fn clean_open<R: Threads + Sync, F: Files, S: Sink>(
    rt: &R,
    alloc: Global,
    files: &mut F,
    out: &mut S,
    index: usize,
    buffer: &mut [u8],
) -> Result<(), CleanFault>
    requires open { F.is_open files.old ≡ true }
    requires room { 0 < length buffer.old }
    requires short { length buffer.old ≤ input_limit }
    ensures room { length buffer.new ≡ length buffer.old }
    ensures cleaned { OnOk result ((first : List Reading) (name : List ℕ)
        → F.given files.old ≡ first ++ record { name = name; bytes = []; at_end = false } ∷ []
        → FileCleaned name (S.written out.old) (S.written out.new) first (F.given files.new)) }
    ensures stops { OnErr result ((first : List Reading) (name : List ℕ)
        → F.given files.old ≡ first ++ record { name = name; bytes = []; at_end = false } ∷ []
        → FileStops name (S.written out.old) (S.written out.new) first (F.given files.new)) }
    ensures cause { IfErr result (IsFaultOf index) }
    ensures opens { F.opens files.new ≡ F.opens files.old }
    ensures counted { S.faults out.new ≡ write_faults result (S.faults out.old) }
    ensures tallied { F.faults files.new ≡ read_faults result (F.faults files.old) }
{
    let mut carry = Carry::new(alloc);
    read_pieces(rt, alloc, files, out, index, buffer, &mut carry)?;
    end_file(rt, alloc, out, &mut carry)
}

/// Cleans the file with this index.
fn clean_file<R: Threads + Sync, F: Files, S: Sink>(
    rt: &R,
    alloc: Global,
    files: &mut F,
    out: &mut S,
    index: usize,
    name: &Text,
    buffer: &mut [u8],
) -> Result<(), CleanFault>
    requires room { 0 < length buffer.old }
    requires short { length buffer.old ≤ input_limit }
    ensures room { length buffer.new ≡ length buffer.old }
    ensures cleaned { OnOk result (FileCleaned name.now (S.written out.old) (S.written out.new)
        (F.given files.old) (F.given files.new)) }
    ensures stops { OnErr result (FileStops name.now (S.written out.old) (S.written out.new)
        (F.given files.old) (F.given files.new)) }
    ensures cause { IfErr result (IsFaultOf index) }
    ensures opens { F.opens files.new ≡ counted_up (F.opens files.old) }
    ensures counted { S.faults out.new ≡ write_faults result (S.faults out.old) }
    ensures tallied { F.faults files.new ≡ read_faults result (F.faults files.old) }
{
    if files.open(name.as_str()).is_err() {
        return Err(CleanFault::File { index });
    }
    clean_open(rt, alloc, files, out, index, buffer)
}

/// Cleans the files of these names, one after another.
pub(crate) fn clean_files<R: Threads + Sync, F: Files, S: Sink>(
    rt: &R,
    alloc: Global,
    files: &mut F,
    out: &mut S,
    names: &[Text],
) -> Result<(), CleanFault>
    requires { is_in_grammar names.now ≡ true }
    ensures explains { Explains result (run_seen names.now
        (files_seen F.given F.opens files.old files.new) S.written out.old out.new) }
    ensures grows { OnlyGrow (F.given files.old) (F.given files.new) }
    ensures counted { S.faults out.new ≡ write_faults result (S.faults out.old) }
    ensures tallied { F.faults files.new ≡ read_faults result (F.faults files.old) }
{
    let mut buffer = vec![in alloc; 0; PIECE]?;
    let mut index = 0usize;
    'files: for name in names {
        clean_file(rt, alloc, files, out, index, name, &mut buffer)?;
        index += 1;
    }
    Ok(())
}
