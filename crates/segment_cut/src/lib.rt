//! The traces of requests, cut into segments by one clock. A segment has the numbers of its texts
//! in the tables of a batch, and no text is copied. The error of a trace that cannot be cut is its
//! first fault.
#![tactic(auto)]

mod cut_segment;
mod cut_trace;
mod elements;
mod keys;
pub mod laws;
mod line_order;
mod ordering;
mod repeats;
mod segments;
mod span;
mod trace_cut;
mod trace_fault;

pub use cut_segment::CutSegment;
pub use cut_trace::CutTrace;
pub use elements::{copy_element, element_of};
pub use trace_cut::cut;
pub use trace_fault::TraceFault;
