//! A session: the jobs of the lines of an input, the state that a session starts in,
//! `Session::command`, which carries out one job and writes its text, and `run_jobs`, which carries
//! out all in order. An add cuts a batch of events into traces, names them, records them by many
//! workers and adds their days to the book, all or none; the other jobs drop days, set a number or
//! print what the kept traces leave: their model, their paths, slacks and graphs, reports on them,
//! forecasts, certificates and their check, and the evidence of relations.
#![tactic(auto)]

mod add_fault;
mod added_text;
mod adding;
mod batch_records;
mod command_fault;
mod commands;
mod controls;
mod job_list;
mod job_printing;
pub mod laws;
mod running;
mod sessions;

pub use command_fault::CommandFault;
pub use job_list::jobs;
pub use running::run_jobs;
pub use session_rules::{Job, Limit};
pub use sessions::Session;
