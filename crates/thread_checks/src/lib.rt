//! Tests of the steps of threads of control, by public calls alone.
#![tactic(auto)]

#[cfg(test)]
mod rows;
#[cfg(test)]
mod threads;
