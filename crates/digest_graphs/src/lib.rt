//! Graphs of traces under the digest of others: a law.
#![tactic(auto)]

pub mod laws;
