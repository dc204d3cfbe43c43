ghost use Rattle.std.specs.Prelude.{◌≡◌, ◌≤◌, ◌<◌, ◌+◌, ◌^◌, length, IfOk, OnOk, OnErr};
ghost use Rattle.std.specs.Prelude.{List, Result};
ghost use Rattle.event_lines.specs.declared.line.Line.{Line};
ghost use Rattle.event_lines.specs.Cut.{input_lines};
ghost use Rattle.event_lines.specs.InputLines.{LineFault, both_said, lines_said_from};
ghost use Rattle.event_lines.specs.inner.LinesSoFar.{said_so_far};
ghost use Rattle.event_lines.specs.inner.Readings.{IsReading};

use crate::input_reading::{LEAST_PIECE, read_shared};
use crate::lines_read::LinesRead;
use crate::pieces::last_number;
use crate::{LineError, LineParts, Why};
use std::alloc::{AllocError, Global};
use std::thread::Threads;

/// What the lines so far say.
#[derive(Debug, Drop)]
pub(crate) enum LinesSoFar {
    /// All are good.
    Good { lines: LineParts },
    /// This is the first bad one. No later line matters.
    Bad { line: u32, why: Why },
}

impl LinesSoFar {
    /// Begins what comes after these lines: no line yet, or the first bad one, after which no line
    /// matters. Takes no memory.
    pub(crate) fn begin_more(&self, alloc: Global) -> LinesSoFar
        ensures { (later : Result (List Line) LineFault)
            → both_said (said_so_far self.now) (both_said (said_so_far result) later)
            ≡ both_said (said_so_far self.now) later }
    {
        match self {
            LinesSoFar::Good { .. } => LinesSoFar::Good {
                lines: LineParts::of(Vec::new(alloc)),
            },
            LinesSoFar::Bad { line, why } => LinesSoFar::Bad {
                line: *line,
                why: *why,
            },
        }
    }

    /// Appends what later lines say. The only error is out of memory, after which all is as before.
    pub(crate) fn append(&mut self, later: LinesSoFar) -> Result<(), AllocError>
        ensures appended { OnOk result (said_so_far self.new
            ≡ both_said (said_so_far self.old) (said_so_far later)) }
        ensures unchanged { OnErr result (said_so_far self.new ≡ said_so_far self.old) }
    {
        let LinesSoFar::Good { lines } = self else {
            return Ok(());
        };
        match later {
            LinesSoFar::Good { lines: more } => lines.append(more),
            LinesSoFar::Bad { line, why } => {
                *self = LinesSoFar::Bad { line, why };
                Ok(())
            }
        }
    }

    /// Reads the lines of bytes, numbered from this one on, by up to so many workers, and appends
    /// what they say. Returns the number of the last line. The only error is out of memory.
    pub(crate) fn add<R: Threads + Sync>(
        &mut self,
        rt: &R,
        alloc: Global,
        workers: u32,
        first: u32,
        bytes: &[u8],
    ) -> Result<u32, AllocError>
        requires { first + length bytes.now < 2 ^ 32 }
        ensures last { IfOk result (λ last. first + length (input_lines bytes.now) ≡ last + 1) }
        ensures few { IfOk result (λ last. last ≤ first + length bytes.now) }
        ensures said { OnOk result (said_so_far self.new
            ≡ both_said (said_so_far self.old) (lines_said_from first (input_lines bytes.now))) }
    {
        let LinesSoFar::Good { lines } = self else {
            return Ok(last_number(first, bytes));
        };
        match read_shared(rt, alloc, first, bytes, workers, LEAST_PIECE) {
            Ok(LinesRead { lines: more, last }) => {
                lines.append(more)?;
                Ok(last)
            }
            Err(LineError::Memory) => Err(AllocError),
            Err(LineError::Bad { line, why }) => {
                *self = LinesSoFar::Bad { line, why };
                Ok(last_number(first, bytes))
            }
        }
    }

    /// Gives the lines, or the first bad one as an error. Takes no memory.
    pub(crate) fn into_reading(self) -> Result<LineParts, LineError>
        ensures { IsReading (said_so_far self) result }
    {
        match self {
            LinesSoFar::Good { lines } => Ok(lines),
            LinesSoFar::Bad { line, why } => Err(LineError::Bad { line, why }),
        }
    }
}
