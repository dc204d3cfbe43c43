ghost use Rattle.std.specs.Prelude.{◌≡◌, ◌<◌, [], vec_capacity, vec_len};

use crate::{CreateFault, OutputFiles};
use mystery_io::{Failed, RealSink, Sink};
use std::alloc::Global;
use std::fs;
use std::io::Write;
use std::snapshot::Snapshot;
use trace_types::Text;

/// A file of std that was made, with its name, which exists in proofs alone.
#[derive(Drop)]
pub(crate) struct NamedSink<W: Write + Drop> {
    pub(crate) name: Snapshot<Text>,
    pub(crate) sink: RealSink<W>,
}

/// The real files, made through the runtime. They tell the bytes that their writes took, in proofs
/// alone.
#[derive(Drop)]
pub struct RealOutputs<'r, R: std::rt::Files> {
    alloc: Global,
    rt: &'r R,
    files: Vec<NamedSink<R::File>>,
    faults: u64,
}

impl<'r, R: std::rt::Files> RealOutputs<'r, R> {
    ghost use Rattle.output_files.specs.Objects.{real_faults, real_written};
    ghost use Rattle.output_files.specs.Written.{after_create};

    /// Makes files through this runtime, with none so far.
    pub fn new(alloc: Global, rt: &'r R) -> RealOutputs<'r, R>
        ensures empty { real_written result ≡ [] }
        ensures none { real_faults result ≡ 0 }
    {
        RealOutputs {
            alloc,
            rt,
            files: Vec::new(alloc),
            faults: 0,
        }
    }

    /// Puts a file that was made behind the others, in the room that there is for it.
    fn keep(&mut self, name: &Text, file: R::File)
        requires room { vec_len self.old.files < vec_capacity self.old.files }
        ensures made { real_written self.new ≡ after_create (real_written self.old) name.now }
        ensures counted { real_faults self.new ≡ real_faults self.old }
    {
        // There is room, so this does not fail.
        let _kept = self.files.push(NamedSink {
            name: Snapshot::of(name),
            sink: RealSink::new(file),
        });
    }
}

impl<R: std::rt::Files> OutputFiles for RealOutputs<'_, R> {
    ghost use Rattle.output_files.specs.Objects.{real_faults, real_written};

    ghost written = { λ s. real_written s };

    ghost faults = { λ s. real_faults s };

    fn count(&self) -> usize {
        self.files.len()
    }

    fn create(&mut self, name: &Text) -> Result<(), CreateFault> {
        // Room for it comes first, so that nothing fails once the file is made.
        self.files.reserve(1)?;
        let Ok(file) = fs::create(self.rt, name.as_str()) else {
            self.faults = self.faults.saturating_add(1);
            return Err(CreateFault::Failed);
        };
        self.keep(name, file);
        Ok(())
    }

    fn write(&mut self, index: usize, piece: &[u8]) -> Result<usize, Failed> {
        let file = &mut self.files[index];
        match file.sink.write(piece) {
            Ok(count) => Ok(count),
            Err(error) => {
                self.faults = self.faults.saturating_add(1);
                Err(error)
            }
        }
    }
}
