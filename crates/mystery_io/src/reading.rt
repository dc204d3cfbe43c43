ghost use Rattle.std.specs.Prelude.{◌≡◌, ◌<◌, ◌≤◌, ◌+◌, ◌==◌, [], ◌^◌, ℕ, length, false, true};
ghost use Rattle.std.specs.Prelude.{IfOk, IfErr, OnOk};
ghost use Rattle.mystery_io.specs.Input.{input_limit, input_read};
ghost use Rattle.mystery_io.specs.Counts.{counted_up};
ghost use Rattle.mystery_io.specs.ReadFaults.{files_seen, OpensFirst, HasReadCause, read_faults};
ghost use Rattle.mystery_io.specs.Readings.{AreEnded, OnlyGrow, new_readings};
ghost use Rattle.mystery_io.specs.inner.Feeding.{EndsLine, FeedsBytes, FeedsFile, IsFeeder};
ghost use Rattle.mystery_io.specs.inner.FileCauses.{HasFileCause, HasRestCause, IsPassedByFeed};

use crate::feeder::{Feeder, fill};
use crate::{Files, Intake};
use std::alloc::{AllocError, AllocFailed, Global};
use trace_types::Text;

/// The most bytes that an input may have.
pub const MAX_INPUT: usize = 67_108_864;

/// How many bytes a list takes at a time.
const PIECE: usize = 65_536;

/// Why an input was not read.
#[derive(Clone, Copy, Debug, PartialEq, Eq)]
pub enum ReadFault {
    /// An allocation failed.
    Memory,
    /// The file at this index of the list, from 0, could not be opened or read.
    File { index: u32 },
    /// The input has more than `MAX_INPUT` bytes.
    TooBig,
}

impl From<AllocError> for ReadFault {
    ghost use Rattle.std.specs.Prelude.{◌≡◌};
    ghost use Rattle.mystery_io.specs.declared.reading.ReadFault.TheVariants.{Memory};

    ghost from_gives = { λ _ e. e ≡ Memory };

    fn from(_: AllocError) -> Self {
        ReadFault::Memory
    }
}

impl<T: Drop> From<AllocFailed<T>> for ReadFault {
    ghost use Rattle.std.specs.Prelude.{◌≡◌};
    ghost use Rattle.mystery_io.specs.declared.reading.ReadFault.TheVariants.{Memory};

    ghost from_gives = { λ _ e. e ≡ Memory };

    fn from(_: AllocFailed<T>) -> Self {
        ReadFault::Memory
    }
}

/// Reads the next bytes of the file at an index, and returns how many: 0 at its end.
fn read_piece<F: Files, I: Intake + Drop>(
    files: &mut F,
    index: u32,
    feeder: &mut Feeder<I>,
) -> Result<usize, ReadFault>
    requires sound { IsFeeder I.room I.ready feeder.old }
    requires open { F.is_open files.old ≡ true }
    ensures is_open { F.is_open files.new ≡ true }
    ensures opens { F.opens files.new ≡ F.opens files.old }
    ensures tallied { F.faults files.new ≡ read_faults result (F.faults files.old) }
    ensures sound { OnOk result (IsFeeder I.room I.ready feeder.new) }
    ensures count { IfOk result (λ n. feeder.new.count ≡ feeder.old.count + n) }
    ensures takes { IfOk result (λ n. FeedsBytes I.took feeder.old feeder.new
        (F.given files.old) (F.given files.new) (n == 0)) }
    ensures cause { IfErr result
        (HasRestCause index feeder.old.count (F.given files.old) (F.given files.new)) }
{
    feeder.make_room()?;
    let filled = feeder.filled;
    let Ok(count) = fill(files, &mut feeder.buffer, filled) else {
        return Err(ReadFault::File { index });
    };
    if MAX_INPUT - feeder.count < count {
        return Err(ReadFault::TooBig);
    }
    feeder.add(count);
    Ok(count)
}

/// Reads what is left of the file at an index.
fn read_rest<F: Files, I: Intake + Drop>(
    files: &mut F,
    index: u32,
    feeder: &mut Feeder<I>,
) -> Result<(), ReadFault>
    requires sound { IsFeeder I.room I.ready feeder.old }
    requires open { F.is_open files.old ≡ true }
    ensures opens { F.opens files.new ≡ F.opens files.old }
    ensures tallied { F.faults files.new ≡ read_faults result (F.faults files.old) }
    ensures sound { OnOk result (IsFeeder I.room I.ready feeder.new) }
    ensures takes { OnOk result (FeedsBytes I.took feeder.old feeder.new
        (F.given files.old) (F.given files.new) true) }
    ensures cause { IfErr result
        (HasRestCause index feeder.old.count (F.given files.old) (F.given files.new)) }
{
    loop {
        let count = read_piece(files, index, feeder)?;
        if count == 0 {
            return Ok(());
        }
    }
}

/// Ends the last line of the bytes.
fn end_line<I: Intake + Drop>(feeder: &mut Feeder<I>) -> Result<(), ReadFault>
    requires { IsFeeder I.room I.ready feeder.old }
    ensures sound { OnOk result (IsFeeder I.room I.ready feeder.new) }
    ensures feeds { OnOk result (EndsLine I.took feeder.old feeder.new) }
    ensures ended { OnOk result (feeder.new.ends_line ≡ true) }
    ensures cause { IfErr result (IsPassedByFeed feeder.old.count feeder.old.ends_line) }
    ensures tallied { (count : ℕ) → read_faults result count ≡ count }
{
    if feeder.ends_line {
        return Ok(());
    }
    if feeder.count == MAX_INPUT {
        return Err(ReadFault::TooBig);
    }
    feeder.make_room()?;
    feeder.push_line_feed();
    Ok(())
}

/// Reads a whole file, after lines that have ended.
fn read_file<F: Files, I: Intake + Drop>(
    files: &mut F,
    name: &Text,
    index: u32,
    feeder: &mut Feeder<I>,
) -> Result<(), ReadFault>
    requires sound { IsFeeder I.room I.ready feeder.old }
    requires lines { feeder.old.ends_line ≡ true }
    ensures opens { F.opens files.new ≡ counted_up (F.opens files.old) }
    ensures tallied { F.faults files.new ≡ read_faults result (F.faults files.old) }
    ensures sound { OnOk result (IsFeeder I.room I.ready feeder.new) }
    ensures lines { OnOk result (feeder.new.ends_line ≡ true) }
    ensures takes { OnOk result (FeedsFile I.took feeder.old feeder.new name.now
        (F.given files.old) (F.given files.new)) }
    ensures cause { IfErr result
        (HasFileCause index feeder.old.count name.now (F.given files.old) (F.given files.new)) }
{
    if files.open(name.as_str()).is_err() {
        return Err(ReadFault::File { index });
    }
    read_rest(files, index, feeder)?;
    end_line(feeder)
}

/// Reads the files of these names one after another, each ending its last line, and stops at the
/// byte that passes `MAX_INPUT`. The intake takes all bytes in order, up to so many at a time.
///
/// The error says why nothing was read: an allocation failure, a file that could not be opened or
/// read, or an input of more bytes than that.
pub fn read_into<F: Files, I: Intake + Drop>(
    alloc: Global,
    files: &mut F,
    names: &[Text],
    intake: I,
    most: usize,
) -> Result<I, ReadFault>
    requires few { length names.now < 2 ^ 32 }
    requires some { 0 < most }
    requires begun { I.took intake [] }
    requires room { input_limit ≤ I.room intake }
    requires ready { I.ready intake }
    ensures input { IfOk result
        (λ new. I.took new (input_read (new_readings (F.given files.old) (F.given files.new)))) }
    ensures fits { OnOk result
        (length (input_read (new_readings (F.given files.old) (F.given files.new)))
        ≤ input_limit) }
    ensures ended { OnOk result (AreEnded (new_readings (F.given files.old) (F.given files.new))) }
    ensures opened { OnOk result
        (OpensFirst (files_seen F.given F.opens files.old files.new) names.now
        (length names.now)) }
    ensures cause { IfErr result
        (HasReadCause (files_seen F.given F.opens files.old files.new) names.now) }
    ensures grows { OnlyGrow (F.given files.old) (F.given files.new) }
    ensures tallied { F.faults files.new ≡ read_faults result (F.faults files.old) }
{
    let mut feeder = Feeder::new(alloc, intake, most)?;
    let mut index = 0u32;
    for name in names {
        read_file(files, name, index, &mut feeder)?;
        index += 1;
    }
    feeder.flush()?;
    Ok(feeder.intake)
}

/// Reads the files of these names as `read_into` does, into a list.
pub fn read_all<F: Files>(
    alloc: Global,
    files: &mut F,
    names: &[Text],
) -> Result<Vec<u8>, ReadFault>
    requires { length names.now < 2 ^ 32 }
    ensures input { IfOk result (λ v. v.items
        ≡ input_read (new_readings (F.given files.old) (F.given files.new))) }
    ensures fits { IfOk result (λ v. length v.items ≤ input_limit) }
    ensures ended { OnOk result (AreEnded (new_readings (F.given files.old) (F.given files.new))) }
    ensures opened { OnOk result
        (OpensFirst (files_seen F.given F.opens files.old files.new) names.now
        (length names.now)) }
    ensures cause { IfErr result
        (HasReadCause (files_seen F.given F.opens files.old files.new) names.now) }
    ensures grows { OnlyGrow (F.given files.old) (F.given files.new) }
    ensures tallied { F.faults files.new ≡ read_faults result (F.faults files.old) }
{
    read_into(alloc, files, names, Vec::new(alloc), PIECE)
}
