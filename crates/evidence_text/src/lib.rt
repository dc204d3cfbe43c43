//! The printed text of the evidence: a header and the rows of each kind, over names and tasks by
//! their places and traces by their indices.
#![tactic(auto)]

mod evidence_rows;
mod name_printing;
mod naming;
mod row_texts;
mod signed_fields;
mod task_printing;
mod text_printing;

pub use evidence_rows::EvidenceRows;
pub use naming::{Naming, TracePlace};
pub use text_printing::print_evidence_rows;
