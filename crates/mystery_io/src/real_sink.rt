ghost use Rattle.std.specs.Prelude.{◌≡◌, ◌<◌, ◌≤◌, [], Some, length, take, IfOk, OnErr};
ghost use Rattle.std.specs.Io.KnownBytes.{Appends, Keeps, append_known};
ghost use Rattle.mystery_io.specs.Counts.{faults_after};

use crate::{Failed, Sink, Taken};
use std::io::Write;

/// A writer of std as a sink. It tells the bytes that its writes took, by a record that exists in
/// proofs alone: no memory holds it. Where std tells what a writer holds, `write` says that it grew
/// by the same bytes. A writer that takes no byte of a piece has failed.
#[derive(Drop)]
pub struct RealSink<W: Write + Drop> {
    writer: W,
    taken: Taken,
    faults: u64,
}

impl<W: Write + Drop> RealSink<W> {
    ghost use Rattle.mystery_io.specs.RealObjects.{writer_of, sink_faults, sink_taken};

    /// Makes the sink that sends to this writer.
    pub fn new(writer: W) -> RealSink<W>
        ensures writer { writer_of result ≡ writer }
        ensures empty { sink_taken result ≡ [] }
        ensures none { sink_faults result ≡ 0 }
    {
        RealSink {
            writer,
            taken: Taken::Nothing,
            faults: 0,
        }
    }
}

impl<W: Write + Drop> Sink for RealSink<W> {
    ghost use Rattle.mystery_io.specs.RealObjects.{writer_of, sink_faults, sink_taken};

    ghost written = { λ s. Some (sink_taken s) };

    ghost faults = { λ s. sink_faults s };

    fn write(&mut self, piece: &[u8]) -> Result<usize, Failed>
        requires { 0 < length piece.now }
        ensures some { IfOk result (λ n. 0 < n) }
        ensures within { IfOk result (λ n. n ≤ length piece.now) }
        ensures appends { IfOk result (λ n. Some (sink_taken self.new)
            ≡ append_known (Some (sink_taken self.old)) (take n piece.now)) }
        ensures stays { OnErr result (Some (sink_taken self.new) ≡ Some (sink_taken self.old)) }
        ensures grows { IfOk result
            (λ n. Appends (W.contents (writer_of self.old)) (W.contents (writer_of self.new))
            (take n piece.now)) }
        ensures keeps { OnErr result
            (Keeps (W.contents (writer_of self.old)) (W.contents (writer_of self.new))) }
        ensures counted { sink_faults self.new ≡ faults_after result (sink_faults self.old) }
    {
        match self.writer.write(piece) {
            Ok(count) if count > 0 => {
                self.taken.add(&piece[..count]);
                Ok(count)
            }
            _ => {
                self.faults = self.faults.saturating_add(1);
                Err(Failed)
            }
        }
    }
}
