//! Digests: what is kept of traces that are not at hand. Definitions and laws alone: what a digest
//! says and of which traces, how two merge, its table and its text.
#![tactic(auto)]

pub mod laws;
