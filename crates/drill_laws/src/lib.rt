//! What the input of a drill says, and how a drill ends: laws over the definitions alone.
#![tactic(auto)]

pub mod laws;
