ghost use Rattle.std.specs.Prelude.{◌≡◌, ◌+◌, ◌-◌, ◌<◌, ◌≤◌, ◌++◌, [], Some, length, take};
ghost use Rattle.std.specs.Prelude.{min, IfOk, OnErr, is_err, ◌||◌, ◌==◌, vec_len};
ghost use Rattle.std.specs.Prelude.{vec_capacity};
ghost use Rattle.std.specs.Io.KnownBytes.{append_known};
ghost use Rattle.mystery_io.specs.Counts.{counted_up, is_planned, faults_after};

use crate::calls::is_planned;
use crate::{Failed, Sink};
use std::alloc::{AllocError, Global};
use std::marker::Model;

/// A sink in memory that tells what was written, and fails as planned.
///
/// The writes are numbered from 1. A write fails exactly where its number is among those that fail
/// or no room is left. No write allocates.
#[derive(Debug, Drop)]
pub struct MemSink {
    bytes: Vec<u8>,
    most: usize,
    failing: Vec<u32>,
    room: usize,
    calls: u64,
    faults: u64,
}

impl Model for MemSink {
    ghost use Rattle.std.specs.Prelude.{◌<◌, ◌≤◌, length, vec_capacity};
    ghost use Rattle.mystery_io.specs.SinkState.{SinkState};

    ghost Value = { SinkState };

    ghost view = { λ a. record {
      bytes = a.bytes.items;
      most = a.most;
      failing = a.failing.items;
      room = a.room;
      calls = a.calls;
      faults = a.faults;
    } };

    ghost invariant = { λ a. record {
      most : 0 < a.most;
      filled : length a.bytes.items ≤ a.room;
      room : a.room ≤ vec_capacity a.bytes;
    } };
}

impl MemSink {
    /// Makes an empty sink with room for `room` bytes in all. A write takes at most `most` bytes,
    /// and `failing` has the numbers of the writes that fail. The only error is an allocation
    /// failure.
    pub fn new(
        alloc: Global,
        most: usize,
        failing: Vec<u32>,
        room: usize,
    ) -> Result<MemSink, AllocError>
        requires { 0 < most }
        ensures { IfOk result (λ s. s
            ≡ record {
              bytes = [];
              most = most;
              failing = failing.items;
              room = room;
              calls = 0;
              faults = 0;
            }) }
    {
        Ok(MemSink {
            bytes: Vec::with_capacity(alloc, room)?,
            most,
            failing,
            room,
            calls: 0,
            faults: 0,
        })
    }

    /// Returns all bytes that were written.
    pub fn bytes(&self) -> &[u8]
        ensures { result.now ≡ self.now.bytes }
    {
        &self.bytes
    }
}

impl Sink for MemSink {
    ghost written = { λ s. Some s.bytes };

    ghost faults = { λ s. s.faults };

    fn write(&mut self, piece: &[u8]) -> Result<usize, Failed>
        requires { 0 < length piece.now }
        ensures some { IfOk result (λ n. 0 < n) }
        ensures within { IfOk result (λ n. n ≤ length piece.now) }
        ensures appends { IfOk result
            (λ n. Some self.new.bytes ≡ append_known (Some self.old.bytes) (take n piece.now)) }
        ensures stays { OnErr result (Some self.new.bytes ≡ Some self.old.bytes) }
        ensures counted { self.new.faults ≡ faults_after result self.old.faults }
        ensures fails { is_err result
            ≡ (is_planned self.old.failing (counted_up self.old.calls)
            || (length self.old.bytes == self.old.room)) }
        ensures count { IfOk result
            (λ n. n ≡ min (min self.old.most (length piece.now))
            (self.old.room - length self.old.bytes)) }
        ensures same { self.new ≡ record self.old {
          bytes = self.new.bytes;
          calls = counted_up self.old.calls;
          faults = self.new.faults;
        } }
    {
        self.calls = self.calls.saturating_add(1);
        let planned = is_planned(&self.failing, self.calls);
        let left = self.room - self.bytes.len();
        if planned || left == 0 {
            self.faults = self.faults.saturating_add(1);
            return Err(Failed);
        }
        let count = self.most.min(piece.len()).min(left);
        append_in_room(&mut self.bytes, &piece[..count]);
        Ok(count)
    }
}

/// Appends bytes that there is room for, and so without allocating.
fn append_in_room(bytes: &mut Vec<u8>, piece: &[u8])
    requires { vec_len bytes.old + length piece.now ≤ vec_capacity bytes.old }
    ensures items { bytes.new.items ≡ bytes.old.items ++ piece.now }
    ensures capacity { vec_capacity bytes.old ≤ vec_capacity bytes.new }
{
    let Ok(()) = bytes.extend_from_slice(piece) else {
        unreachable!()
    };
}
