use crate::{Amount, NumberList};
use trace_types::NameText;

/// The head of the report on the slowest loads.
#[derive(Debug, Drop)]
pub struct TailHead {
    /// How many loads are kept.
    pub traces: Amount,
    /// How many of them are slow.
    pub slow: Amount,
    /// The least latency of a slow one.
    pub floor: Amount,
}

/// How long one name is on the critical paths of slow loads, and of the rest.
#[derive(Debug, Drop)]
pub struct TailRow {
    /// The name.
    pub name: NameText,
    /// On how many critical paths of slow loads it is.
    pub slow_on: Amount,
    /// How long it lasts there together.
    pub slow_sum: Amount,
    /// On how many of the rest.
    pub rest_on: Amount,
    /// How long it lasts there together.
    pub rest_sum: Amount,
}

/// The loads of one rank: a twentieth of all, the quickest first.
#[derive(Debug, Drop)]
pub struct BucketRow {
    /// Its number, from 0.
    pub number: Amount,
    /// How many loads it has.
    pub loads: Amount,
    /// Their latencies together.
    pub latency: Amount,
    /// Their critical paths together.
    pub length: Amount,
    /// The least latency.
    pub least: Amount,
}

/// How long one name is on critical paths, rank by rank.
#[derive(Debug, Drop)]
pub struct RankRow {
    /// The name.
    pub name: NameText,
    /// Its time on the critical paths of each rank.
    pub sums: NumberList,
}
