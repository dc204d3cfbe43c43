//! The loads of a page as lanes: a lane for each task, and one for the critical path, with each bar
//! once in the lane of its task and once in a table.
#![tactic(auto)]

mod lane_bars;
mod lane_list;
pub mod laws;
mod load_texts;
mod loads;
mod texts;

pub use loads::push_loads;
