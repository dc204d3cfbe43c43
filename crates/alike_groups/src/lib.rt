//! Groups of equal elements of a list: where the first of each is, how many there are, and which
//! groups are the greatest.
#![tactic(auto)]

mod greatest;
mod group;
mod grouping;

pub use greatest::greatest_groups;
pub use group::Group;
pub use grouping::group_alike;
