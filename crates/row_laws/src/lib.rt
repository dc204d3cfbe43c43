//! Laws on the rows of the evidence: they name exactly the relations of the model, with as many
//! traces as support each, and without the implied ones the same names reach each other.
#![tactic(auto)]

pub mod laws;
