//! A large input from two numbers: the event lines of many traces whose times are drawn by a linear
//! congruential sequence.
#![tactic(auto)]

mod draw_sequence;
mod generation;
pub mod laws;
mod line_bytes;
mod trace_draws;
mod trace_line;
mod trace_lines;

pub use generation::generate;
