ghost use Rattle.std.specs.Prelude.{◌≡◌, ◌<◌, ◌≤◌, ◌+◌, ◌^◌, ◌++◌, [], drop, length, take, IfErr};
ghost use Rattle.std.specs.Prelude.{IfOk, OnOk};
ghost use Rattle.mystery_io.specs.Input.{input_limit, input_read};
ghost use Rattle.mystery_io.specs.ReadFaults.{files_seen, HasReadCause, OpensFirst, read_faults};
ghost use Rattle.mystery_io.specs.Readings.{AreEnded, OnlyGrow, new_readings};
ghost use Rattle.mystery_run.specs.declared.input_form.InputForm.TheVariants.{Lines};
ghost use Rattle.mystery_run.specs.Works.{preface_said};
ghost use Rattle.mystery_run.specs.inner.GivenTables.{IsUsable};
ghost use Rattle.mystery_run.specs.inner.Inputs.{IsReadAs};
ghost use Rattle.mystery_run.specs.inner.ReadingTwice.{HasReadingCause, preface_files, said_by};

use crate::Reason;
use crate::call_files::CallFiles;
use crate::input::Input;
use crate::input_form::InputForm;
use crate::line_intake::LineIntake;
use crate::preface::Preface;
use certificates::{CertFault, ClaimList, read_certificate};
use digest_laws::laws::what_is_read_gives_a_digest;
use digest_reading::{DigestFault, read_digests};
use event_lines::{LineError, LineReader};
use mystery_io::{Files, ReadFault, read_all, read_into};
use std::alloc::Global;
use std::thread::Threads;
use trace_types::Text;

/// The bytes of an input that are kept for one worker.
const WORKER_BYTES: usize = 4_194_304;

/// The most workers for which bytes are kept.
const MOST_BUFFERED_WORKERS: u32 = 4;

/// What was read for a call.
#[derive(Debug, Drop)]
pub(crate) struct Readings {
    /// What the preface says.
    pub(crate) preface: Preface,
    /// What the input says, or its bytes.
    pub(crate) input: Input,
}

/// Reads the files of these names as one list of bytes. That of no file is empty and takes no call.
fn read_bytes<F: Files>(alloc: Global, files: &mut F, names: &[Text]) -> Result<Vec<u8>, ReadFault>
    requires { length names.now < 2 ^ 32 }
    ensures input { IfOk result (λ v. v.items
        ≡ input_read (new_readings (F.given files.old) (F.given files.new))) }
    ensures fits { IfOk result (λ v. length v.items ≤ input_limit) }
    ensures ended { OnOk result (AreEnded (new_readings (F.given files.old) (F.given files.new))) }
    ensures opened { OnOk result
        (OpensFirst (files_seen F.given F.opens files.old files.new)
        names.now (length names.now)) }
    ensures cause { IfErr result
        (HasReadCause (files_seen F.given F.opens files.old files.new)
        names.now) }
    ensures unread { names.now ≡ [] → files.new ≡ files.old }
    ensures grows { OnlyGrow (F.given files.old) (F.given files.new) }
    ensures tallied { F.faults files.new ≡ read_faults result (F.faults files.old) }
{
    if names.is_empty() {
        return Ok(Vec::new(alloc));
    }
    read_all(alloc, files, names)
}

/// Reads the file of a certificate and drops its bytes. Without a name there are no claims.
fn read_claims<F: Files>(alloc: Global, files: &mut F, names: &[Text]) -> Result<Preface, ReadFault>
    requires { length names.now < 2 ^ 32 }
    ensures said { IfOk result (λ read.
        preface_said [] (input_read (new_readings (F.given files.old) (F.given files.new)))
        ≡ said_by read) }
    ensures fits { OnOk result
        (length (input_read (new_readings (F.given files.old) (F.given files.new)))
        ≤ input_limit) }
    ensures usable { IfOk result (λ read. IfOk (said_by read) IsUsable) }
    ensures ended { OnOk result (AreEnded (new_readings (F.given files.old) (F.given files.new))) }
    ensures opened { OnOk result
        (OpensFirst (files_seen F.given F.opens files.old files.new)
        names.now (length names.now)) }
    ensures cause { IfErr result
        (HasReadCause (files_seen F.given F.opens files.old files.new)
        names.now) }
    ensures unread { names.now ≡ [] → files.new ≡ files.old }
    ensures grows { OnlyGrow (F.given files.old) (F.given files.new) }
    ensures tallied { F.faults files.new ≡ read_faults result (F.faults files.old) }
{
    let bytes = read_bytes(alloc, files, names)?;
    match read_certificate(alloc, &bytes) {
        Ok(claims) => Ok(Preface::Said {
            tables: Vec::new(alloc),
            claims: ClaimList::of(claims),
        }),
        Err(CertFault::Bad { line }) => Ok(Preface::Bad {
            line,
            why: Reason::Certificate,
        }),
        Err(CertFault::Memory) => Err(ReadFault::Memory),
    }
}

/// Reads the files that are given as digests, one text after another, and drops their bytes.
fn read_given<F: Files>(alloc: Global, files: &mut F, names: &[Text]) -> Result<Preface, ReadFault>
    requires some { 0 < length names.now }
    requires few { length names.now < 2 ^ 32 }
    ensures said { IfOk result (λ read.
        preface_said names.now
        (input_read (new_readings (F.given files.old) (F.given files.new)))
        ≡ said_by read) }
    ensures fits { OnOk result
        (length (input_read (new_readings (F.given files.old) (F.given files.new)))
        ≤ input_limit) }
    ensures usable { IfOk result (λ read. IfOk (said_by read) IsUsable) }
    ensures ended { OnOk result (AreEnded (new_readings (F.given files.old) (F.given files.new))) }
    ensures opened { OnOk result
        (OpensFirst (files_seen F.given F.opens files.old files.new)
        names.now (length names.now)) }
    ensures cause { IfErr result
        (HasReadCause (files_seen F.given F.opens files.old files.new)
        names.now) }
    ensures grows { OnlyGrow (F.given files.old) (F.given files.new) }
    ensures tallied { F.faults files.new ≡ read_faults result (F.faults files.old) }
{
    // For the proof alone.
    what_is_read_gives_a_digest();
    let bytes = read_bytes(alloc, files, names)?;
    match read_digests(alloc, &bytes) {
        Ok(tables) => Ok(Preface::Said {
            tables,
            claims: ClaimList::of(Vec::new(alloc)),
        }),
        Err(DigestFault::Bad { line }) => Ok(Preface::Bad {
            line,
            why: Reason::Summary,
        }),
        Err(DigestFault::Memory) => Err(ReadFault::Memory),
    }
}

/// Reads the preface of a call: the files that are given, or the certificate that is checked.
fn read_preface<F: Files>(
    alloc: Global,
    files: &mut F,
    names: CallFiles<'_>,
) -> Result<Preface, ReadFault>
    requires { length (preface_files names) < 2 ^ 32 }
    ensures said { IfOk result (λ read.
        preface_said names.entry.given.now
        (input_read (new_readings (F.given files.old) (F.given files.new)))
        ≡ said_by read) }
    ensures fits { OnOk result
        (length (input_read (new_readings (F.given files.old) (F.given files.new)))
        ≤ input_limit) }
    ensures usable { IfOk result (λ read. IfOk (said_by read) IsUsable) }
    ensures ended { OnOk result (AreEnded (new_readings (F.given files.old) (F.given files.new))) }
    ensures opened { OnOk result
        (OpensFirst (files_seen F.given F.opens files.old files.new)
        (preface_files names.entry) (length (preface_files names.entry))) }
    ensures cause { IfErr result
        (HasReadCause (files_seen F.given F.opens files.old files.new)
        (preface_files names.entry)) }
    ensures unread { preface_files names.entry ≡ [] → files.new ≡ files.old }
    ensures grows { OnlyGrow (F.given files.old) (F.given files.new) }
    ensures tallied { F.faults files.new ≡ read_faults result (F.faults files.old) }
{
    if names.given.is_empty() {
        return read_claims(alloc, files, names.certificate);
    }
    read_given(alloc, files, names.given)
}

/// Reads the lines of the files of these names by up to so many workers, while the files are read. A
/// bad line ends nothing, since a later file may fail to be read.
fn read_input_lines<R: Threads + Sync, F: Files>(
    rt: &R,
    alloc: Global,
    workers: u32,
    files: &mut F,
    names: &[Text],
) -> Result<Input, ReadFault>
    requires workers { 0 < workers }
    requires some { 0 < length names.now }
    requires few { length names.now < 2 ^ 32 }
    ensures input { IfOk result
        (λ read. IsReadAs Lines read
        (input_read (new_readings (F.given files.old) (F.given files.new)))) }
    ensures ended { OnOk result (AreEnded (new_readings (F.given files.old) (F.given files.new))) }
    ensures opened { OnOk result
        (OpensFirst (files_seen F.given F.opens files.old files.new)
        names.now (length names.now)) }
    ensures cause { IfErr result
        (HasReadCause (files_seen F.given F.opens files.old files.new)
        names.now) }
    ensures grows { OnlyGrow (F.given files.old) (F.given files.new) }
    ensures tallied { F.faults files.new ≡ read_faults result (F.faults files.old) }
{
    let reader = LineReader::new(alloc, workers);
    let piece = workers.min(MOST_BUFFERED_WORKERS) as usize * WORKER_BYTES;
    let intake = read_into(alloc, files, names, LineIntake { rt, reader }, piece)?;
    match intake.reader.finish() {
        Ok(lines) => Ok(Input::Lines { lines }),
        Err(LineError::Bad { line, why }) => Ok(Input::Bad { line, why }),
        Err(LineError::Memory) => Err(ReadFault::Memory),
    }
}

/// Reads the files of these names as one input of this form. That of no file is empty and takes no
/// call.
fn read_input<R: Threads + Sync, F: Files>(
    rt: &R,
    alloc: Global,
    workers: u32,
    form: InputForm,
    files: &mut F,
    names: &[Text],
) -> Result<Input, ReadFault>
    requires workers { 0 < workers }
    requires few { length names.now < 2 ^ 32 }
    ensures input { IfOk result
        (λ read. IsReadAs form read
        (input_read (new_readings (F.given files.old) (F.given files.new)))) }
    ensures ended { OnOk result (AreEnded (new_readings (F.given files.old) (F.given files.new))) }
    ensures opened { OnOk result
        (OpensFirst (files_seen F.given F.opens files.old files.new)
        names.now (length names.now)) }
    ensures cause { IfErr result
        (HasReadCause (files_seen F.given F.opens files.old files.new)
        names.now) }
    ensures unread { names.now ≡ [] → files.new ≡ files.old }
    ensures grows { OnlyGrow (F.given files.old) (F.given files.new) }
    ensures tallied { F.faults files.new ≡ read_faults result (F.faults files.old) }
{
    match form {
        InputForm::Lines if !names.is_empty() => {
            read_input_lines(rt, alloc, workers, files, names)
        }
        _ => {
            let bytes = read_bytes(alloc, files, names)?;
            Ok(Input::Bytes { bytes })
        }
    }
}

/// Reads the preface of a call, if it has one, and then its input, each reading within the limit of
/// size by itself.
///
/// The error says why not all was read; it counts files over both readings.
pub(crate) fn read_both<R: Threads + Sync, F: Files>(
    rt: &R,
    alloc: Global,
    workers: u32,
    form: InputForm,
    files: &mut F,
    names: CallFiles<'_>,
) -> Result<Readings, ReadFault>
    requires workers { 0 < workers }
    requires few { length (preface_files names) + length names.input.now < 2 ^ 32 }
    ensures said { IfOk result (λ read. preface_said names.entry.given.now (input_read
        (take (length (preface_files names.entry))
        (new_readings (F.given files.old) (F.given files.new)))) ≡ said_by read.preface) }
    ensures preface_fits { OnOk result (length (input_read
        (take (length (preface_files names.entry))
        (new_readings (F.given files.old) (F.given files.new)))) ≤ input_limit) }
    ensures usable { IfOk result (λ read. IfOk (said_by read.preface) IsUsable) }
    ensures input { IfOk result
        (λ read. IsReadAs form read.input (input_read
        (drop (length (preface_files names.entry))
        (new_readings (F.given files.old) (F.given files.new))))) }
    ensures ended { OnOk result (AreEnded (new_readings (F.given files.old) (F.given files.new))) }
    ensures opened { OnOk result
        (OpensFirst (files_seen F.given F.opens files.old files.new)
        (preface_files names.entry ++ names.entry.input.now)
        (length (preface_files names.entry ++ names.entry.input.now))) }
    ensures cause { IfErr result
        (HasReadingCause
        (files_seen F.given F.opens files.old files.new)
        (preface_files names.entry) names.entry.input.now) }
    ensures unread { preface_files names.entry ++ names.entry.input.now ≡ []
        → files.new ≡ files.old }
    ensures grows { OnlyGrow (F.given files.old) (F.given files.new) }
    ensures tallied { F.faults files.new ≡ read_faults result (F.faults files.old) }
{
    let preface = read_preface(alloc, files, names)?;
    match read_input(rt, alloc, workers, form, files, names.input) {
        Ok(input) => Ok(Readings { preface, input }),
        Err(ReadFault::Memory) => Err(ReadFault::Memory),
        Err(ReadFault::File { index }) => Err(ReadFault::File {
            index: names.preface_count() + index,
        }),
        Err(ReadFault::TooBig) => Err(ReadFault::TooBig),
    }
}
