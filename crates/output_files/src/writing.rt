ghost use Rattle.std.specs.Prelude.{◌≡◌, ◌<◌, length, OnOk, OnErr};
ghost use Rattle.mystery_io.specs.Counts.{faults_after};
ghost use Rattle.output_files.specs.Written.{WritesPrefix, after_write};

use crate::OutputFiles;
use mystery_io::Failed;

/// Appends all the bytes to the file with this index, piece after piece, without allocating. If a
/// write fails, a prefix of the bytes was written.
pub fn write_all<P: OutputFiles>(files: &mut P, index: usize, bytes: &[u8]) -> Result<(), Failed>
    requires { index < length (P.written files.old) }
    ensures all { OnOk result
        (P.written files.new ≡ after_write (P.written files.old) index bytes.now) }
    ensures prefix { OnErr result
        (WritesPrefix (P.written files.old) index bytes.now (P.written files.new)) }
    ensures tallied { P.faults files.new ≡ faults_after result (P.faults files.old) }
{
    let mut sent = 0;
    while sent < bytes.len() {
        sent += files.write(index, &bytes[sent..])?;
    }
    Ok(())
}
