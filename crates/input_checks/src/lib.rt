//! Tests of what the program takes and gives, by public calls alone: the shared types, files and
//! sinks, printed rows, event lines, and the input of a drill.
#![tactic(auto)]

#[cfg(test)]
mod control_lines;
#[cfg(test)]
mod drills;
#[cfg(test)]
mod event_lists;
#[cfg(test)]
mod files_and_sinks;
#[cfg(test)]
mod pieces;
#[cfg(test)]
mod printed_rows;
#[cfg(test)]
mod real_objects;
#[cfg(test)]
mod shared_types;
#[cfg(test)]
mod single_lines;
#[cfg(test)]
mod ways;
