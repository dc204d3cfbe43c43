//! The order of rows by their support: the most supported first.
#![tactic(auto)]

mod ordering;

pub use ordering::order_by_support;
