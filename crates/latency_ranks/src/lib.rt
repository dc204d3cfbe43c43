//! Traces in buckets by latency, from the quickest to the slowest: at most twenty, of which the last
//! has the slow traces.
#![tactic(auto)]

mod buckets;
mod places;

pub use buckets::{bucket_count, find_buckets};
