//! Weighted graphs whose edges lead from lower to higher vertices: the lengths of their longest
//! chains, and their transitive reduction.
#![tactic(auto)]

mod bit_set;
mod dag;
mod length;
mod lengths;
mod number_list;
mod reduction;

pub use dag::Dag;
pub use length::Length;
pub use lengths::{Lengths, lengths_from, longest_length};
pub use number_list::NumberList;
pub use reduction::reduce;
