//! Relations between segment names and between tasks, named by numbers, and the place of each: one
//! bit of one word. Pairs of tasks stand in the words 0 to 125, pairs of names from word 126 on, so
//! names that are added later leave all earlier places as they are.
#![tactic(auto)]

mod bit_place;
pub mod laws;
mod layout;
mod pairs;
mod reading;
mod relation;

pub use bit_place::BitPlace;
pub use layout::{exclusion_place, place, width};
pub use reading::unplace;
pub use relation::Relation;
