//! The names of contexts in their threads, of threads and their pieces, and of machines.
#![tactic(auto)]

mod bases;
mod label_key;
mod labels;
pub mod laws;
mod machines;
mod numbers;
mod pieces;
mod scattering;
mod task_names;
mod tasks;

pub use labels::name_contexts;
pub use machines::{MachineNames, name_machines};
pub use pieces::{GroupNumbers, number_groups};
pub use task_names::TaskNames;
pub use tasks::name_tasks;
