//! Cuts tasks into pieces where they wait for a message, and names the pieces: from the event that
//! receives a message right after one that sends, the task goes on under a name of its own.
#![tactic(auto)]

mod piece_names;
mod piece_numbers;
mod stems;
mod task_key;
mod task_names;
mod task_numbers;

pub use task_key::TaskKey;
pub use task_names::TaskNames;
