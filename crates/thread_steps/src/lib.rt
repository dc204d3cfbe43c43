//! The steps of threads of control over calls: into each call that is not forked and back, and over
//! calls that are forked together by a fork and a join.
#![tactic(auto)]

mod forking;
mod gaps;
pub mod laws;
mod parts;
mod rows;
mod step;
mod step_table;
mod walking;

pub use forking::Forking;
pub use step::Step;
pub use step_table::{StepTable, make_steps};
