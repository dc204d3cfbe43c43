//! Groups spans into requests: which span called which, and the calls that nothing called.
#![tactic(auto)]

mod callers;
mod circles;
mod content;
mod entries;
mod entry_key;
mod ids;
mod numbering;
mod repeats;
mod requests;
mod span_fault;
mod span_id;
mod traces;

pub use requests::{Requests, find_requests};
pub use span_fault::SpanFault;
