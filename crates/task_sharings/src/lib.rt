//! The figures of the elements that each two tasks share in many traces, in one pass.
#![tactic(auto)]

mod adding;
mod noting;
mod pipes;
mod staying;
mod table;
mod trace_shares;

pub use table::share_all;
