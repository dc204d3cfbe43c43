//! Tests of `inspect_run::run` over files and sinks in memory: the rows of worked lines, whole and
//! some bytes a call, and how a run ends at faults.
#![tactic(auto)]

#[cfg(test)]
mod bad_members;
#[cfg(test)]
mod clocks;
#[cfg(test)]
mod faults;
#[cfg(test)]
mod grace_rows;
#[cfg(test)]
mod line_rows;
#[cfg(test)]
mod name_rows;
#[cfg(test)]
mod running;
