//! The names that spans give are texts that event lines may have: laws over the definitions alone.
#![tactic(auto)]

pub mod laws;
