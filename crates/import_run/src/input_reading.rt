ghost use Rattle.std.specs.Prelude.{◌≡◌, ◌+◌, ◌-◌, ◌≤◌, ◌<◌, ◌^◌, length, IfErr, IfOk};
ghost use Rattle.mystery_io.specs.Counts.{counted_up};
ghost use Rattle.mystery_io.specs.ReadFaults.{files_seen};
ghost use Rattle.mystery_io.specs.Readings.{OnlyGrow};
ghost use Rattle.import_run.specs.CommandLines.{file_names};
ghost use Rattle.import_run.specs.Endings.{StopsReading};
ghost use Rattle.import_run.specs.Inputs.{input_limit};
ghost use Rattle.import_run.specs.inner.InputReadings.{HasInput, ReadsOne, StopsAt, read_faults};
ghost use Rattle.import_run.specs.inner.Taken.{form_of_input};

use crate::command_line::{count_files, name_at};
use crate::input::Input;
use crate::{Form, Outcome};
use mystery_io::Files;
use std::alloc::Global;
use std::thread::Threads;
use trace_types::Text;
use whole_files::{FileReadFault, read_file};

/// The most bytes that the files may have together.
const MAX_INPUT: usize = 268_435_456;

/// Reads the file with this index, after so many bytes of others, and appends what it has. The
/// result is how many bytes there are then.
fn read_one<R: Threads + Sync, F: Files>(
    rt: &R,
    alloc: Global,
    files: &mut F,
    name: &str,
    index: u32,
    size: usize,
    input: &mut Input,
) -> Result<usize, Outcome>
    requires { size ≤ input_limit }
    ensures opens { F.opens files.new ≡ counted_up (F.opens files.old) }
    ensures tallied { F.faults files.new ≡ read_faults result (F.faults files.old) }
    ensures form { form_of_input input.new ≡ form_of_input input.old }
    ensures reads { IfOk result (λ next. ReadsOne index name.now size next input.old input.new
        (F.given files.old) (F.given files.new)) }
    ensures cause { IfErr result (StopsAt index size name.now input.old (F.given files.old)
        (F.given files.new)) }
{
    match read_file(alloc, files, name, MAX_INPUT - size) {
        Err(FileReadFault::Memory) => Err(Outcome::Memory),
        Err(FileReadFault::Failed) => Err(Outcome::File { index }),
        Err(FileReadFault::TooBig) => Err(Outcome::Size),
        Ok(bytes) => {
            input.take_file(rt, alloc, index, &bytes)?;
            Ok(size + bytes.len())
        }
    }
}

/// Reads the files of an input in this form, one after another, and gives what they have; or tells
/// how the run ends before that: out of memory, at a file that could not be read, at the byte that
/// passes the limit, or at the first bad line or span.
pub(crate) fn read_input<R: Threads + Sync, F: Files>(
    rt: &R,
    alloc: Global,
    files: &mut F,
    form: Form,
    words: &[Text],
) -> Result<Input, Outcome>
    requires { length words.now < 2 ^ 30 }
    ensures input { IfOk result (HasInput form (files_seen F.given F.opens files.old files.new)
        (file_names words.now)) }
    ensures cause { IfErr result (λ outcome. StopsReading form outcome
        (files_seen F.given F.opens files.old files.new) (file_names words.now)) }
    ensures tallied { F.faults files.new ≡ read_faults result (F.faults files.old) }
    ensures grows { OnlyGrow (F.given files.old) (F.given files.new) }
{
    let mut input = Input::new(alloc, form);
    let mut size = 0usize;
    for index in 0..count_files(words) {
        let name = name_at(words, index);
        size = read_one(rt, alloc, files, name, index as u32, size, &mut input)?;
    }
    Ok(input)
}
