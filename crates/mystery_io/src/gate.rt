ghost use Rattle.std.specs.Prelude.{IsTrue};

/// A gate that a worker passes before each trace that it offers.
pub trait Gate {
    /// Lets the worker pass, perhaps after waiting. `trace` is the index of the trace in the
    /// worker's list, from 0.
    fn turn(&self, worker: u32, trace: u32);

    /// Tells whether `turn` never waits. Then workers with little to do may run one after another
    /// in one thread. A gate whose `turn` may wait for another worker must answer false: that worker
    /// might not run until this one is done. The default is false.
    fn never_waits(&self) -> bool {
        false
    }
}

/// A gate that is always open.
#[derive(Clone, Copy, Debug)]
pub struct OpenGate;

impl Gate for OpenGate {
    fn turn(&self, _worker: u32, _trace: u32) {}

    fn never_waits(&self) -> bool
        ensures { IsTrue result }
    {
        true
    }
}
