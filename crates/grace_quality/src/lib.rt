//! Relations that few traces refute, and all of these by less than a millisecond: clocks, or truth?
//! They are found in the figures of the meetings of each two names, with the grace under which they
//! survive.
#![tactic(auto)]

mod grace;
pub mod laws;
mod met;
mod near;

pub use grace::least_grace;
pub use met::count_met;
pub use near::{NearKind, NearRelation, find_near};
