//! What calls and their contexts are: laws over the definitions alone.
#![tactic(auto)]

pub mod laws;
