//! Tests of the event lines of spans, by public calls alone.
#![tactic(auto)]

#[cfg(test)]
mod requests;
#[cfg(test)]
mod rows;
#[cfg(test)]
mod threads;
