//! Tests of what records traces, by public calls alone: words and rows of bits, the places of
//! relations, what a model answers from words, tables of words, and workers that record a day. The
//! traces of which two tasks share their elements are made here for the checks above too.
#![tactic(auto)]

#[cfg(test)]
mod blocks;
#[cfg(test)]
mod drawn_rows;
#[cfg(test)]
mod drawn_traces;
#[cfg(test)]
mod gates;
#[cfg(test)]
mod name_rows;
#[cfg(test)]
mod places;
#[cfg(test)]
mod pools;
#[cfg(test)]
mod questions;
#[cfg(test)]
mod recordings;
#[cfg(test)]
mod rows;
mod shared_traces;
#[cfg(test)]
mod task_rows;
#[cfg(test)]
mod traces;
#[cfg(test)]
mod word_tables;
#[cfg(test)]
mod workers;

pub use shared_traces::shared_trace;
