//! What the segments of threads are of calls: a law over the definitions alone.
#![tactic(auto)]

pub mod laws;
