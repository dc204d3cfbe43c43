//! Traces that begin alike, and those of them that lack an event that nearly all of them have.
#![tactic(auto)]

mod counts;
mod cut_short;
mod names;
mod usual;

pub use cut_short::tally_cut;
