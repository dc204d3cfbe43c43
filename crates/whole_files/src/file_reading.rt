ghost use Rattle.std.specs.Prelude.{◌≡◌, ◌+◌, ◌<◌, ◌≤◌, ◌==◌, [], ◌^◌, drop, length, take, true};
ghost use Rattle.std.specs.Prelude.{false, List, ◌≢◌};
ghost use Rattle.std.specs.Prelude.{IfOk, IfErr, OnErr, OnOk};
ghost use Rattle.mystery_io.specs.Counts.{counted_up, faults_after};
ghost use Rattle.mystery_io.specs.Readings.{Reading, after_read};
ghost use Rattle.whole_files.specs.FileReadings.{Came, FailsAfter, ReadsPiece, faults_of};
ghost use Rattle.whole_files.specs.declared.file_read_fault.FileReadFault.TheVariants.{TooBig};

use crate::FileReadFault;
use mystery_io::{Failed, Files};
use std::alloc::Global;

/// How many bytes are read at a time.
const PIECE: usize = 65_536;

/// Reads the next bytes of the open file into a buffer, behind so many.
fn fill<F: Files>(files: &mut F, buffer: &mut [u8], filled: usize) -> Result<usize, Failed>
    requires some { filled < length buffer.old }
    requires open { F.is_open files.old ≡ true }
    ensures is_open { F.is_open files.new ≡ true }
    ensures opens { F.opens files.new ≡ F.opens files.old }
    ensures tallied { F.faults files.new ≡ faults_after result (F.faults files.old) }
    ensures within { IfOk result (λ n. filled + n ≤ length buffer.new) }
    ensures length { length buffer.new ≡ length buffer.old }
    ensures kept { take filled buffer.new ≡ take filled buffer.old }
    ensures gives { IfOk result (λ n. F.given files.new
        ≡ after_read (F.given files.old) (take n (drop filled buffer.new))) }
    ensures stays { OnErr result (F.given files.new ≡ F.given files.old) }
{
    files.read(&mut buffer[filled..])
}

/// Appends the next bytes of the open file, and returns how many: 0 at its end.
fn read_piece<F: Files>(files: &mut F, bytes: &mut Vec<u8>) -> Result<usize, FileReadFault>
    requires open { F.is_open files.old ≡ true }
    requires short { length bytes.old.items < 2 ^ 62 }
    ensures is_open { F.is_open files.new ≡ true }
    ensures opens { F.opens files.new ≡ F.opens files.old }
    ensures tallied { F.faults files.new ≡ faults_of result (F.faults files.old) }
    ensures reads { IfOk result (λ n. ReadsPiece n bytes.old.items bytes.new.items
        (F.given files.old) (F.given files.new)) }
    ensures stays { OnErr result (F.given files.new ≡ F.given files.old) }
    ensures small { IfErr result (λ e. e ≢ TooBig) }
{
    let filled = bytes.len();
    bytes.resize(filled + PIECE, 0)?;
    let Ok(count) = fill(files, bytes, filled) else {
        return Err(FileReadFault::Failed);
    };
    bytes.truncate(filled + count);
    Ok(count)
}

/// Reads the rest of the open file, of which nothing was read yet.
fn read_rest<F: Files>(
    files: &mut F,
    bytes: &mut Vec<u8>,
    name: &str,
    most: usize,
) -> Result<(), FileReadFault>
    requires open { F.is_open files.old ≡ true }
    requires short { most < 2 ^ 61 }
    requires empty { bytes.old.items ≡ [] }
    ensures opens { F.opens files.new ≡ F.opens files.old }
    ensures tallied { F.faults files.new ≡ faults_of result (F.faults files.old) }
    ensures reads { OnOk result ((before : List Reading) → Came name.now [] false before (F.given files.old)
        → Came name.now bytes.new.items true before (F.given files.new)) }
    ensures most { OnOk result (length bytes.new.items ≤ most) }
    ensures cause { IfErr result (λ e. (before : List Reading) → Came name.now [] false before (F.given files.old)
        → FailsAfter most name.now before (F.given files.new) e) }
{
    'pieces: loop {
        let count = read_piece(files, bytes)?;
        if count == 0 {
            return Ok(());
        }
        if bytes.len() > most {
            return Err(FileReadFault::TooBig);
        }
    }
}

/// Reads a whole file of at most so many bytes, below 2^61. The errors are a file that cannot be
/// opened or read, one that has more bytes, of which some more than these were read, and out of
/// memory.
pub fn read_file<F: Files>(
    alloc: Global,
    files: &mut F,
    name: &str,
    most: usize,
) -> Result<Vec<u8>, FileReadFault>
    requires { most < 2 ^ 61 }
    ensures opens { F.opens files.new ≡ counted_up (F.opens files.old) }
    ensures tallied { F.faults files.new ≡ faults_of result (F.faults files.old) }
    ensures reads { IfOk result (λ v. Came name.now v.items true (F.given files.old)
        (F.given files.new)) }
    ensures most { IfOk result (λ v. length v.items ≤ most) }
    ensures cause { IfErr result (FailsAfter most name.now (F.given files.old)
        (F.given files.new)) }
{
    let mut bytes = Vec::new(alloc);
    if files.open(name).is_err() {
        return Err(FileReadFault::Failed);
    }
    read_rest(files, &mut bytes, name, most)?;
    Ok(bytes)
}
