//! Relations of the names of a batch's valid traces that few of these traces refute, and all of them
//! by little: the traces are named by a catalogue, as other commands name them, and the relations are
//! found in the figures of the meetings of each two names.
#![tactic(auto)]

mod finding;
mod found;
mod naming;

pub use finding::find_near_relations;
pub use found::NearFound;
