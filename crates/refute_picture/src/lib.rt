//! What refutes relations: the pairs of boxes of the model that overlap, each with the load that
//! shows it, and how many pairs of names there are of each kind.
#![tactic(auto)]

mod box_time;
mod ordering;
mod overlap_row;
mod table;
mod texts;
mod totals;

pub use ordering::order_overlaps;
pub use overlap_row::OverlapRow;
pub use table::push_refutes;
pub use totals::Kind;
