ghost use Rattle.std.specs.Prelude.{◌≡◌, ◌+◌, ◌<◌, ◌≤◌, ◌∷◌, [], drop, length, take, vec_len};
ghost use Rattle.std.specs.Prelude.{IfOk, OnOk, OnErr, true};
ghost use Rattle.mystery_io.specs.Counts.{faults_after};
ghost use Rattle.mystery_io.specs.Input.{input_limit};
ghost use Rattle.mystery_io.specs.Readings.{after_read};
ghost use Rattle.mystery_io.specs.inner.Feeding.{Feeds, Holds, IsFeeder, KeepsBytes};

use crate::{Failed, Files, Intake};
use std::alloc::{AllocError, Global};

/// The length of a buffer at first.
const FIRST: usize = 65_536;

/// Bytes on their way to an intake: the last ones are in a buffer.
#[derive(Drop)]
pub(crate) struct Feeder<I> {
    /// What took the bytes before those in the buffer.
    pub(crate) intake: I,
    /// Bytes that were not taken yet stand first; what is behind them means nothing.
    pub(crate) buffer: Vec<u8>,
    /// How many they are.
    pub(crate) filled: usize,
    /// A buffer that is shorter grows when it is full.
    pub(crate) most: usize,
    /// How many bytes there were, taken or not.
    pub(crate) count: usize,
    /// Whether the last of them was a line feed, or there was none.
    pub(crate) ends_line: bool,
}

/// Reads the next bytes of the open file into a buffer, behind so many.
pub(crate) fn fill<F: Files>(
    files: &mut F,
    buffer: &mut [u8],
    filled: usize,
) -> Result<usize, Failed>
    requires some { filled < length buffer.old }
    requires open { F.is_open files.old ≡ true }
    ensures is_open { F.is_open files.new ≡ true }
    ensures opens { F.opens files.new ≡ F.opens files.old }
    ensures tallied { F.faults files.new ≡ faults_after result (F.faults files.old) }
    ensures within { IfOk result (λ n. filled + n ≤ length buffer.new) }
    ensures length { length buffer.new ≡ length buffer.old }
    ensures kept { take filled buffer.new ≡ take filled buffer.old }
    ensures gives { IfOk result (λ n. F.given files.new
        ≡ after_read (F.given files.old) (take n (drop filled buffer.new))) }
    ensures stays { OnErr result (F.given files.new ≡ F.given files.old) }
{
    files.read(&mut buffer[filled..])
}

impl<I: Intake + Drop> Feeder<I> {
    /// Begins with no byte. A full buffer grows up to so many bytes.
    pub(crate) fn new(alloc: Global, intake: I, most: usize) -> Result<Feeder<I>, AllocError>
        requires some { 0 < most }
        requires begun { I.took intake [] }
        requires room { input_limit ≤ I.room intake }
        requires ready { I.ready intake }
        ensures sound { IfOk result (λ f. IsFeeder I.room I.ready f) }
        ensures holds { IfOk result (λ f. Holds I.took f []) }
        ensures none { IfOk result (λ f. f.count ≡ 0) }
        ensures ended { IfOk result (λ f. f.ends_line ≡ true) }
    {
        let buffer = vec![in alloc; 0; FIRST.min(most)]?;
        Ok(Feeder {
            intake,
            buffer,
            filled: 0,
            most,
            count: 0,
            ends_line: true,
        })
    }

    /// Gives the bytes in the buffer to the intake.
    pub(crate) fn flush(&mut self) -> Result<(), AllocError>
        requires { IsFeeder I.room I.ready self.old }
        ensures sound { OnOk result (IsFeeder I.room I.ready self.new) }
        ensures keeps { OnOk result (KeepsBytes I.took self.old self.new) }
        ensures emptied { OnOk result (self.new.filled ≡ 0) }
    {
        self.intake.take(&self.buffer[..self.filled])?;
        self.filled = 0;
        Ok(())
    }

    /// Makes room for one byte at least.
    pub(crate) fn make_room(&mut self) -> Result<(), AllocError>
        requires { IsFeeder I.room I.ready self.old }
        ensures sound { OnOk result (IsFeeder I.room I.ready self.new) }
        ensures keeps { OnOk result (KeepsBytes I.took self.old self.new) }
        ensures room { OnOk result (self.new.filled < vec_len self.new.buffer) }
    {
        let length = self.buffer.len();
        if self.filled < length {
            return Ok(());
        }
        if length < self.most {
            return self
                .buffer
                .resize(length.saturating_mul(2).min(self.most), 0);
        }
        self.flush()
    }

    /// Counts bytes that stand in the buffer behind those so far.
    pub(crate) fn add(&mut self, count: usize)
        requires sound { IsFeeder I.room I.ready self.old }
        requires within { self.old.filled + count ≤ vec_len self.old.buffer }
        requires fits { self.old.count + count ≤ input_limit }
        ensures sound { IsFeeder I.room I.ready self.new }
        ensures feeds { Feeds I.took self.old (take count (drop self.old.filled self.old.buffer.items))
            self.new }
        ensures count { self.new.count ≡ self.old.count + count }
    {
        if count == 0 {
            return;
        }
        self.filled += count;
        self.count += count;
        self.ends_line = self.buffer[self.filled - 1] == b'\n';
    }

    /// Appends a line feed.
    pub(crate) fn push_line_feed(&mut self)
        requires sound { IsFeeder I.room I.ready self.old }
        requires within { self.old.filled < vec_len self.old.buffer }
        requires fits { self.old.count < input_limit }
        ensures sound { IsFeeder I.room I.ready self.new }
        ensures feeds { Feeds I.took self.old (10 ∷ []) self.new }
    {
        self.buffer[self.filled] = b'\n';
        self.add(1);
    }
}
