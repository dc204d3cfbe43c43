//! A digest stands for the traces that it is of: what is printed under it is what a full pass over
//! all traces prints, and its traces may be split, merged and ordered in any way. Laws over the
//! definitions alone.
#![tactic(auto)]

pub mod laws;
