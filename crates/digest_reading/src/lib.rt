//! Reads the texts of digests, one after another, as their tables, or tells the first line outside
//! the form.
#![tactic(auto)]

mod day_reading;
mod digest_counts;
mod digest_fault;
mod fields;
mod headers;
mod lines;
mod long_numbers;
mod marks;
mod name_reading;
mod read_to;
mod reading;
mod task_reading;
mod texts;

pub use digest_counts::DigestCounts;
pub use digest_fault::DigestFault;
pub use reading::read_digests;
