//! A runtime with a limit on the threads that share one piece of work, as `--workers N` sets it.
#![tactic(auto)]

mod limit;

pub use limit::WorkerLimit;
