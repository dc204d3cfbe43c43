ghost use Rattle.std.specs.Thread.{IsSync};
ghost use Rattle.mystery_run.specs.inner.Inputs.{HasTaken};
ghost use Rattle.event_lines.specs.LinesTaken.{room_after};

use event_lines::LineReader;
use mystery_io::Intake;
use std::alloc::AllocError;
use std::thread::Threads;

/// Reads the lines of an input while its files are read.
#[derive(Drop)]
pub(crate) struct LineIntake<'r, R> {
    pub(crate) rt: &'r R,
    pub(crate) reader: LineReader,
}

impl<R: Threads + Sync> Intake for LineIntake<'_, R> {
    ghost took = { λ intake bytes. HasTaken intake.reader bytes };

    ghost room = { λ intake. room_after intake.reader };

    ghost ready = { λ _. IsSync R.row };

    /// Reads the lines that end in these bytes.
    fn take(&mut self, bytes: &[u8]) -> Result<(), AllocError> {
        self.reader.take(self.rt, bytes)
    }
}
