//! Which contexts are forked, and which of them run beside one another.
#![tactic(auto)]

mod below;
mod forks;
mod last;
mod links;
mod marks;
mod partners;

pub use below::calls_below;
pub use forks::{Forks, find_forks};
