//! Tests of `view_run::run` over files and sinks in memory: pages of no load and of one load, names
//! that look like markup, the graph of a model, and how a run ends at faults.
#![tactic(auto)]

#[cfg(test)]
mod faults;
#[cfg(test)]
mod graphs;
#[cfg(test)]
mod pages;
#[cfg(test)]
mod running;
