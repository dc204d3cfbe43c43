//! What traces mean, as definitions alone: the graph of a trace and its critical path, how long
//! segments last, figures of times, which traces are slow, which tasks are a pipeline, which traces
//! each of several workers takes, and when a watch number is due. They speak of lists of traces as
//! any reading has them, by text or by number, and of plain figures; the crates above compute them.
#![tactic(auto)]

mod figures;
mod forecast;
mod watch_line;

pub use figures::Figures;
pub use forecast::Forecast;
pub use watch_line::WatchLine;
