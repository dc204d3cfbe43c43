//! Merges digests in memory, as tables: names and tasks in their order, and the marks of each pair
//! from both; two of them, or all of a list.
#![tactic(auto)]

mod day_merging;
mod different;
mod digest_limit;
pub mod laws;
mod limits;
mod marks;
mod merge_fault;
mod merging;
mod merging_all;
mod name_merging;
mod places;
mod task_merging;

pub use digest_limit::DigestLimit;
pub use merge_fault::MergeFault;
pub use merging::merge_digests;
pub use merging_all::merge_all;
