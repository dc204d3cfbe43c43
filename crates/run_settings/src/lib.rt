//! What a program meets in tests: its arguments, two files in memory and sinks in memory, which give
//! and take some bytes a call and fail as planned.
#![tactic(auto)]

mod setting;

pub use setting::{SETTING, Setting};
