//! Laws on what stands behind relations: the relations that the figures of two names or tasks tell
//! are those of the model, and the first trace that they tell is the first that refutes.
#![tactic(auto)]

pub mod laws;
