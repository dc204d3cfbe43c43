//! Tests of `mystery split`, by public calls alone: `run` over files in memory, what it writes and
//! how it ends.
#![tactic(auto)]

#[cfg(test)]
mod splits;
