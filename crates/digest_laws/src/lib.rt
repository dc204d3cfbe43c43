//! What is printed of digests is read again, and what is read is the text of digests: laws over the
//! definitions alone.
#![tactic(auto)]

pub mod laws;
