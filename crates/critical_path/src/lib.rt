//! The critical path of a weighted graph: of its longest chains the first in lexicographic order.
#![tactic(auto)]

mod chain;
mod first_longest;
mod walk;

pub use chain::Chain;
pub use first_longest::critical;
