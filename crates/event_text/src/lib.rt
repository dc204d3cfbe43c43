//! Prints event lines: the text of an event or of a control line, each in one form.
#![tactic(auto)]

mod command_line;
mod event_line;
mod quoting;

pub use command_line::push_command;
pub use event_line::{push_event, push_name, push_place, push_rest};
