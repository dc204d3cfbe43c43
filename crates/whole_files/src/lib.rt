//! Files that are read whole, one at a time, each up to a limit of its bytes.
#![tactic(auto)]

mod file_read_fault;
mod file_reading;

pub use file_read_fault::FileReadFault;
pub use file_reading::read_file;
