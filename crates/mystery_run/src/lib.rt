//! The program `mystery` as one call: `run` reads arguments and files, carries out what they ask
//! for, and writes the text, over any files, sinks and gate.
#![tactic(auto)]

mod action;
mod call_files;
mod change_words;
mod command_line;
mod drill;
mod evidence_words;
mod forecast;
mod given_words;
mod hex;
mod input;
mod input_form;
mod job_reading;
pub mod laws;
mod line_intake;
mod numbers;
mod outcome;
mod preface;
mod program;
mod readings;
mod real_run;
mod reason;
mod replay;
mod replaying;
mod session_run;
mod view;

pub use outcome::Outcome;
pub use program::run;
pub use real_run::run_real;
pub use reason::Reason;
