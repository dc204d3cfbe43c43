//! Tests of `line_clean::run` over files and sinks in memory: what is printed of worked lines,
//! whole and some bytes a call, and how a run ends at faults.
#![tactic(auto)]

#[cfg(test)]
mod faults;
#[cfg(test)]
mod good_lines;
#[cfg(test)]
mod running;
