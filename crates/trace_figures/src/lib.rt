//! What each kept trace tells of a page: its critical path, and the slacks and the gains of the
//! vertices of its graph.
#![tactic(auto)]

mod measuring;
mod one_path;
mod one_trace;
mod page_figures;
mod trace_figures;

pub use measuring::measure_traces;
pub use page_figures::PageFigures;
pub use trace_figures::TraceFigures;
