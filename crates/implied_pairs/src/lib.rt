//! Which pairs of numbers are implied by others: those between which a chain of other pairs leads
//! through a third strongly connected component.
#![tactic(auto)]

mod implying;
pub mod laws;
mod reaching;

pub use implying::implied_pairs;
