//! What event lines without waits are: laws over the definitions alone.
#![tactic(auto)]

pub mod laws;
