//! The quality of names: the segment names and the tasks of the valid traces of a batch, how many
//! there are of each, and their families, which differ in ids alone. Neither limit of a catalogue
//! holds here.
#![tactic(auto)]

mod alone;
mod counting;
mod labels;
pub mod laws;
mod names;

pub use alone::list_alone;
pub use counting::{group_names, group_tasks};
pub use labels::{
    find_name_families, find_task_families, push_label, push_name, push_name_pattern, push_task,
    push_task_pattern,
};
pub use names::{NameNumbers, gather_names};
