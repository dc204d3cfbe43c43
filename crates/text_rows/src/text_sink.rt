ghost use Rattle.std.specs.Prelude.{◌≡◌, ◌<◌, ◌≤◌, [], Some, length, take, IfOk, OnErr};
ghost use Rattle.std.specs.Io.KnownBytes.{append_known};
ghost use Rattle.mystery_io.specs.Counts.{faults_after};

use mystery_io::{Failed, Sink};
use std::alloc::Global;

/// A sink in memory that tells what was written. It takes every piece whole, and a write fails only
/// where memory runs out.
#[derive(Debug, Drop)]
pub struct TextSink {
    bytes: Vec<u8>,
    faults: u64,
}

impl std::marker::Model for TextSink {
    ghost use Rattle.std.specs.Prelude.{◌<◌, ◌^◌};
    ghost use Rattle.text_rows.specs.TextSinks.{TextSinkState};

    ghost Value = { TextSinkState };

    ghost view = { λ a. record { bytes = a.bytes.items; faults = a.faults } };
}

impl TextSink {
    /// Makes an empty sink, without allocating.
    pub fn new(alloc: Global) -> TextSink
        ensures { result ≡ record { bytes = []; faults = 0 } }
    {
        TextSink {
            bytes: Vec::new(alloc),
            faults: 0,
        }
    }

    /// Gives all bytes that were written.
    pub fn into_bytes(self) -> Vec<u8>
        ensures { result.items ≡ self.bytes }
    {
        self.bytes
    }
}

impl Sink for TextSink {
    ghost written = { λ s. Some s.bytes };

    ghost faults = { λ s. s.faults };

    fn write(&mut self, piece: &[u8]) -> Result<usize, Failed>
        requires { 0 < length piece.now }
        ensures some { IfOk result (λ n. 0 < n) }
        ensures within { IfOk result (λ n. n ≤ length piece.now) }
        ensures appends { IfOk result (λ n. Some self.new.bytes
            ≡ append_known (Some self.old.bytes) (take n piece.now)) }
        ensures stays { OnErr result (Some self.new.bytes ≡ Some self.old.bytes) }
        ensures counted { self.new.faults ≡ faults_after result self.old.faults }
        ensures whole { IfOk result (λ n. n ≡ length piece.now) }
    {
        if self.bytes.extend_from_slice(piece).is_err() {
            self.faults = self.faults.saturating_add(1);
            return Err(Failed);
        }
        Ok(piece.len())
    }
}
