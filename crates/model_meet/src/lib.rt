//! The relations that no trace of a list refutes. `Model` answers questions on them from words of
//! bits, one for each relation. The crate `model_checks` compares the answers with those of the
//! definitions' plain program, on drawn lists of traces.
#![tactic(auto)]

mod counts;
mod exclusion_rows;
mod exclusions;
pub mod laws;
mod model;
mod pair_lines;

pub use counts::Counts;
pub use exclusion_rows::ExclusionRows;
pub use exclusions::Exclusions;
pub use model::Model;
