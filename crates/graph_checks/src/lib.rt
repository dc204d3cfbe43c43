//! Tests of the graph kernels together, by public calls alone: lists of successors, worked graphs,
//! and plain programs on all small graphs.
#![tactic(auto)]

#[cfg(test)]
mod dags;
#[cfg(test)]
mod plain;
#[cfg(test)]
mod tests;
