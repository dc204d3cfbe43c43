//! What the event lines of spans are: laws over the definitions alone.
#![tactic(auto)]

pub mod laws;
