//! What each vertex of a weighted graph gains: how much shorter the longest chain is once that vertex
//! alone weighs nothing, and once it weighs half.
#![tactic(auto)]

mod around;
mod forward;
mod gain;
pub mod laws;
mod measuring;
mod spans;

pub use gain::Gain;
pub use measuring::gains;
