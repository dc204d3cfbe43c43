//! The slowest traces, one in twenty of the kept ones: from which latency on a trace is slow, and
//! for each segment on how many critical paths of slow traces it is, and of the rest, and how long.
#![tactic(auto)]

pub mod laws;
mod marking;
mod names;
mod path_tables;
mod rows;
mod slow_report;
mod slow_traces;
mod tail_row;
mod tail_row_list;
mod tailing;

pub use slow_report::SlowReport;
pub use tail_row::TailRow;
pub use tail_row_list::TailRowList;
pub use tailing::{tail, tail_over};
