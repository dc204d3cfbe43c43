//! Kept traces judged together with a given digest: what both refute as words, and the digest of
//! the traces.
#![tactic(auto)]

mod given_digest;
mod given_names;
mod given_rows;
mod judged_book;
mod kept_digest;
mod kept_marks;
pub mod laws;

pub use given_digest::GivenDigest;
pub use judged_book::JudgedBook;
pub use kept_digest::digest_of_kept;
