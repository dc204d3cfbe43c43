ghost use Rattle.std.specs.Prelude.{◌≡◌, length, OnOk, OnErr};
ghost use Rattle.std.specs.Io.KnownBytes.{append_known};
ghost use Rattle.mystery_io.specs.Counts.{faults_after};
ghost use Rattle.mystery_io.specs.Prefixes.{AppendsPrefix, Sends};

use crate::{Failed, Sink};

/// Writes all the bytes, piece after piece, without allocating. If a write fails, a prefix of the
/// bytes was written.
pub fn write_text<S: Sink>(sink: &mut S, bytes: &[u8]) -> Result<(), Failed>
    ensures all { OnOk result (S.written sink.new ≡ append_known (S.written sink.old) bytes.now) }
    ensures prefix { OnErr result
        (AppendsPrefix (S.written sink.old) (S.written sink.new) bytes.now) }
    ensures counted { S.faults sink.new ≡ faults_after result (S.faults sink.old) }
    ensures nothing { length bytes.now ≡ 0 → sink.new ≡ sink.old }
{
    let mut sent = 0;
    while sent < bytes.len() {
        sent += sink.write(&bytes[sent..])?;
    }
    Ok(())
}

/// Writes the bytes, best effort: stops at the first failure and does not report it.
pub fn send_text<S: Sink>(sink: &mut S, bytes: &[u8])
    ensures sends { Sends S.written S.faults sink.old sink.new bytes.now }
    ensures nothing { length bytes.now ≡ 0 → sink.new ≡ sink.old }
{
    let _ = write_text(sink, bytes);
}
