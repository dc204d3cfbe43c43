//! The outside of the program: files that are read, sinks that are written to and the gate that
//! workers pass, each as a trait that counts its faults, with objects in memory, objects that never
//! fail, and the real ones. Above them stand the two calls that the program makes: one reads the
//! input of a list of files, and one writes a text to its end.
#![tactic(auto)]

mod byte_list;
mod calls;
mod feeder;
mod files;
mod gate;
mod history;
mod intake;
pub mod laws;
mod mem_file;
mod mem_files;
mod mem_sink;
mod named_files;
mod reading;
mod real_files;
mod real_sink;
mod sink;
mod sure_files;
mod sure_sink;
mod taken;
mod writing;

pub use byte_list::ByteList;
pub use files::{Failed, Files};
pub use gate::{Gate, OpenGate};
pub use history::History;
pub use intake::Intake;
pub use mem_file::MemFile;
pub use mem_files::MemFiles;
pub use mem_sink::MemSink;
pub use reading::{MAX_INPUT, ReadFault, read_all, read_into};
pub use real_files::RealFiles;
pub use real_sink::RealSink;
pub use sink::Sink;
pub use sure_files::SureFiles;
pub use sure_sink::SureSink;
pub use taken::Taken;
pub use writing::{send_text, write_text};
