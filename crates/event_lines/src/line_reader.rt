ghost use Rattle.std.specs.Prelude.{◌≡◌, ◌≤◌, ◌<◌, ◌+◌, ◌-◌, ◌∷◌, [], ◌++◌, length, Ok};
ghost use Rattle.std.specs.Prelude.{List, ℕ, IfOk, IfErr, OnOk, OnErr};
ghost use Rattle.event_lines.specs.InputLines.{lines_said, IsLineError};
ghost use Rattle.event_lines.specs.LinesTaken.{TakesBytes, room_after, said_with};
ghost use Rattle.event_lines.specs.inner.MoreTaken.{IsBegun, with_later};

use crate::lines::read_piece;
use crate::lines_so_far::LinesSoFar;
use crate::pieces::{cut_at_last_line_feed, cut_at_line_feed, join_readings};
use crate::{LineError, LineParts};
use std::alloc::{AllocError, Global};
use std::marker::Model;
use std::thread::Threads;

/// Reads the lines of an input that comes in pieces, cut anywhere, and keeps of its bytes only
/// those after the last line feed. Contracts see it as what it says of the bytes.
#[derive(Debug, Drop)]
pub struct LineReader {
    alloc: Global,
    workers: u32,
    lines: LinesSoFar,
    number: u32,
    rest: Vec<u8>,
}

impl Model for LineReader {
    ghost use Rattle.std.specs.Prelude.{◌+◌, ◌<◌, ◌^◌, length};
    ghost use Rattle.event_lines.specs.LinesTaken.{LinesTaken};
    ghost use Rattle.event_lines.specs.inner.LinesSoFar.{said_so_far};

    ghost Value = { LinesTaken };

    ghost view = { λ a. record {
      ended = said_so_far a.lines;
      number = a.number;
      rest = a.rest.items;
    } };

    ghost invariant = { λ a. a.number + length a.rest.items < 2 ^ 32 };
}

impl LineReader {
    /// Makes a reader that took nothing. Up to so many workers read each piece.
    pub fn new(alloc: Global, workers: u32) -> LineReader
        ensures said { (bytes : List ℕ) → said_with result bytes ≡ lines_said bytes }
        ensures room { room_after result ≡ u32.MAX - 1 }
    {
        LineReader {
            alloc,
            workers,
            lines: LinesSoFar::Good {
                lines: LineParts::of(Vec::new(alloc)),
            },
            number: 1,
            rest: Vec::new(alloc),
        }
    }

    /// Returns how many bytes more it takes, so that the number of each line fits 32 bits.
    pub fn room(&self) -> u32
        ensures { result ≡ room_after self.now }
    {
        u32::MAX - (self.number + self.rest.len() as u32)
    }

    /// Takes bytes that are followed by a line feed, and this line feed.
    fn take_lines<R: Threads + Sync>(&mut self, rt: &R, bytes: &[u8]) -> Result<(), AllocError>
        requires { length bytes.now < room_after self.old }
        ensures { OnOk result (TakesBytes self.old (bytes.now ++ 10 ∷ []) self.new) }
    {
        if self.rest.is_empty() {
            let last = self
                .lines
                .add(rt, self.alloc, self.workers, self.number, bytes)?;
            self.number = last + 1;
            return Ok(());
        }
        self.rest.extend_from_slice(bytes)?;
        let last = self
            .lines
            .add(rt, self.alloc, self.workers, self.number, &self.rest)?;
        self.number = last + 1;
        self.rest.clear();
        Ok(())
    }

    /// Takes bytes and keeps them, or none of them.
    fn keep(&mut self, bytes: &[u8]) -> Result<(), AllocError>
        requires { length bytes.now ≤ room_after self.old }
        ensures taken { OnOk result (TakesBytes self.old bytes.now self.new) }
        ensures unchanged { OnErr result (self.new ≡ self.old) }
    {
        self.rest.extend_from_slice(bytes)
    }

    /// Takes bytes. After an error it may have taken some of them.
    fn take_in_steps<R: Threads + Sync>(&mut self, rt: &R, bytes: &[u8]) -> Result<(), AllocError>
        requires { length bytes.now ≤ room_after self.old }
        ensures { OnOk result (TakesBytes self.old bytes.now self.new) }
    {
        let Some((first, later)) = cut_at_line_feed(bytes, 0) else {
            return self.keep(bytes);
        };
        self.take_lines(rt, first)?;
        let Some((lines, rest)) = cut_at_last_line_feed(later) else {
            return self.keep(later);
        };
        self.take_lines(rt, lines)?;
        self.keep(rest)
    }

    /// Makes a reader of what comes next: it has the bytes of the line that has not ended, and no
    /// line before them.
    fn begin_more(&self) -> Result<LineReader, AllocError>
        ensures { IfOk result (IsBegun self.now) }
    {
        Ok(LineReader {
            alloc: self.alloc,
            workers: self.workers,
            lines: self.lines.begin_more(self.alloc),
            number: self.number,
            rest: Vec::from_slice(self.alloc, &self.rest)?,
        })
    }

    /// Appends what a reader took that began where this one stands.
    fn append(&mut self, later: LineReader) -> Result<(), AllocError>
        ensures appended { OnOk result (self.new ≡ with_later self.old later) }
        ensures unchanged { OnErr result (self.new ≡ self.old) }
    {
        let LineReader {
            lines,
            number,
            rest,
            ..
        } = later;
        self.lines.append(lines)?;
        self.number = number;
        self.rest = rest;
        Ok(())
    }

    /// Takes the next bytes of the input. Lines that end are read; after the first bad line no
    /// further one is. The only error is out of memory, after which no byte was taken, and the same
    /// bytes can be given again.
    pub fn take<R: Threads + Sync>(&mut self, rt: &R, bytes: &[u8]) -> Result<(), AllocError>
        requires { length bytes.now ≤ room_after self.old }
        ensures taken { OnOk result (TakesBytes self.old bytes.now self.new) }
        ensures unchanged { OnErr result (self.new ≡ self.old) }
    {
        if cut_at_line_feed(bytes, 0).is_none() {
            return self.keep(bytes);
        }
        let mut more = self.begin_more()?;
        more.take_in_steps(rt, bytes)?;
        self.append(more)
    }

    /// Ends the input and gives its lines.
    ///
    /// The errors are `Memory`, and `Bad` with the number of the first bad line and the first
    /// reason that holds of it.
    pub fn finish(self) -> Result<LineParts, LineError>
        ensures lines_read { IfOk result (λ v. said_with self [] ≡ Ok v) }
        ensures first_bad { IfErr result (IsLineError (said_with self [])) }
    {
        let LineReader {
            alloc,
            lines,
            number,
            rest,
            ..
        } = self;
        Ok(join_readings(lines.into_reading(), read_piece(alloc, number, &rest))?.lines)
    }
}
