//! Rewrites event lines so that no segment is a wait: where an event that sends is followed in its
//! task by one that receives, the task goes on under a name of its own from that receipt.
#![tactic(auto)]

mod keys;
mod printing;
mod rewriting;

pub use rewriting::rewrite;
