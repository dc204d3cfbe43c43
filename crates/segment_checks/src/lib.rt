//! Tests of how traces are cut, by public calls alone: clock offsets, segments, the faults of traces
//! that are refused, and segments and tasks by number.
#![tactic(auto)]

#[cfg(test)]
mod batch_names;
#[cfg(test)]
mod batches;
#[cfg(test)]
mod clocks;
#[cfg(test)]
mod cut_faults;
#[cfg(test)]
mod cuts;
#[cfg(test)]
mod many_texts;
#[cfg(test)]
mod names;
#[cfg(test)]
mod segments;
