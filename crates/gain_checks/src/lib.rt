//! Tests of the gains of vertices, of the spread of numbers and of buckets by latency, by public calls
//! alone.
#![tactic(auto)]

#[cfg(test)]
mod buckets;
#[cfg(test)]
mod gains;
#[cfg(test)]
mod spreads;
