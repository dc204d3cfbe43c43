//! Counterexamples: whether a trace refutes a relation, straight from its times, the first kept
//! trace that does, those of all relations in one pass, and whether kept traces show a claim.
#![tactic(auto)]

mod claims;
mod elements;
mod finding;
mod finding_all;
mod first_refuters;
mod names;
mod pipes;
mod refuting;
mod searching;
mod word_refuters;

pub use claims::shown;
pub use finding::Finding;
pub use finding_all::find_all;
pub use first_refuters::FirstRefuters;
pub use refuting::refutes;
pub use searching::find;
