//! The head of a page: the figures of all loads, their latency rank by rank, and what was refused,
//! by reason.
#![tactic(auto)]

mod columns;
mod figures;
mod head;
mod refused;
mod texts;

pub use head::push_head;
