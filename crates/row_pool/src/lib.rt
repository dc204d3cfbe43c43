//! Rows of words, all of one width, in one block of raw memory. Free rows are linked through their
//! own first words.
#![tactic(auto)]

pub mod laws;
mod pool;
mod row_id;
mod steps;
mod storage;
mod words;

pub use pool::RowPool;
pub use row_id::RowId;
pub use steps::Steps;
