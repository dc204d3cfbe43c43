//! Files that a program makes and writes, many at a time: a trait that tells what was written to each
//! file and counts its faults, with an object in memory and the real one.
#![tactic(auto)]

mod create_fault;
mod mem_outputs;
mod outputs;
mod real_outputs;
mod writing;

pub use create_fault::CreateFault;
pub use mem_outputs::{MemOutput, MemOutputs};
pub use outputs::OutputFiles;
pub use real_outputs::RealOutputs;
pub use writing::write_all;
