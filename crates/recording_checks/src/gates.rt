//! Gates that hold workers until others have come.

use mystery_io::Gate;
use std::sync::atomic::{AtomicU64, Ordering};
use std::thread;

/// Waits for a turn that another worker marks, for so many rounds. Answers whether it came.
fn comes(turn: &AtomicU64) -> bool {
    for _ in 0..10_000_000u64 {
        if turn.load(Ordering::SeqCst) == 1 {
            return true;
        }
        thread::yield_now();
    }
    false
}

/// Holds turn 0 of each of two workers until turn 0 of the other has come.
#[derive(Drop)]
pub(crate) struct BothFirst {
    zero: AtomicU64,
    one: AtomicU64,
    failed: AtomicU64,
}

impl BothFirst {
    /// Makes the gate before the first turn.
    pub(crate) fn new() -> BothFirst {
        BothFirst {
            zero: AtomicU64::new(0),
            one: AtomicU64::new(0),
            failed: AtomicU64::new(0),
        }
    }

    /// Whether turn 0 of worker 0 and of worker 1 came, and whether one was waited for in vain.
    pub(crate) fn turns(&self) -> (u64, u64, u64) {
        (
            self.zero.load(Ordering::SeqCst),
            self.one.load(Ordering::SeqCst),
            self.failed.load(Ordering::SeqCst),
        )
    }
}

impl Gate for BothFirst {
    fn turn(&self, worker: u32, _trace: u32) {
        let (mine, other) = if worker == 0 {
            (&self.zero, &self.one)
        } else {
            (&self.one, &self.zero)
        };
        mine.store(1, Ordering::SeqCst);
        if !comes(other) {
            self.failed.store(1, Ordering::SeqCst);
        }
    }
}

/// Holds turn 0 of worker 0 until turn 1 of worker 1 has come, and that turn until turn 1 of worker
/// 0 has come.
#[derive(Drop)]
pub(crate) struct OneBeforeZero {
    zero: AtomicU64,
    one: AtomicU64,
    failed: AtomicU64,
}

impl OneBeforeZero {
    /// Makes the gate before the first turn.
    pub(crate) fn new() -> OneBeforeZero {
        OneBeforeZero {
            zero: AtomicU64::new(0),
            one: AtomicU64::new(0),
            failed: AtomicU64::new(0),
        }
    }

    /// Tells whether a turn was waited for in vain.
    pub(crate) fn has_failed(&self) -> bool {
        self.failed.load(Ordering::SeqCst) == 1
    }
}

impl Gate for OneBeforeZero {
    fn turn(&self, worker: u32, trace: u32) {
        let came = match (worker, trace) {
            (0, 0) => comes(&self.one),
            (0, 1) => {
                self.zero.store(1, Ordering::SeqCst);
                true
            }
            (1, 1) => {
                self.one.store(1, Ordering::SeqCst);
                comes(&self.zero)
            }
            _ => true,
        };
        if !came {
            self.failed.store(1, Ordering::SeqCst);
        }
    }
}

/// Never waits, and does not tell so: all workers stand beside one another.
#[derive(Clone, Copy)]
pub(crate) struct PassingGate;

impl Gate for PassingGate {
    fn turn(&self, _worker: u32, _trace: u32) {}
}

/// Tells that it never waits, and yet holds each turn of two workers until a turn of the other has
/// come, however long that takes.
#[derive(Drop)]
pub(crate) struct MeetingGate {
    zero: AtomicU64,
    one: AtomicU64,
}

impl MeetingGate {
    /// Makes the gate before the first turn.
    pub(crate) fn new() -> MeetingGate {
        MeetingGate {
            zero: AtomicU64::new(0),
            one: AtomicU64::new(0),
        }
    }
}

impl Gate for MeetingGate {
    fn turn(&self, worker: u32, _trace: u32) {
        let (mine, other) = if worker == 0 {
            (&self.zero, &self.one)
        } else {
            (&self.one, &self.zero)
        };
        mine.store(1, Ordering::SeqCst);
        for _ in 0..u64::MAX {
            if other.load(Ordering::SeqCst) == 1 {
                return;
            }
            thread::yield_now();
        }
    }

    fn never_waits(&self) -> bool {
        true
    }
}
