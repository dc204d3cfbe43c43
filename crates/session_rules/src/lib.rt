//! What a session is: the jobs that it carries out, what each does to the kept traces, and the text
//! that it prints. The definitions speak of plain lists of traces and of texts alone; the crates
//! above carry them out over days, numbers and words.
#![tactic(auto)]

mod job;
mod kept_trace;
mod limit;
mod named_change;
mod refused;
mod session_part;

pub use job::Job;
pub use kept_trace::KeptTrace;
pub use limit::Limit;
pub use named_change::NamedChange;
pub use refused::Refused;
pub use session_part::SessionPart;
