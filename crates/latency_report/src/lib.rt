//! The latency report: over the kept traces the figures of their latencies, how long their critical
//! paths are, and for each segment how long it lasts, and on how many critical paths it is.
#![tactic(auto)]

mod full_report;
mod measuring;
mod reporting;
mod rows;
mod segment_row;
mod segment_row_list;
mod tables;

pub use full_report::FullReport;
pub use reporting::{report, report_over};
pub use segment_row::SegmentRow;
pub use segment_row_list::SegmentRowList;
