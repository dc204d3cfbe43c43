//! What a printed certificate says when it is read again: laws over the definitions alone.
#![tactic(auto)]

pub mod laws;
