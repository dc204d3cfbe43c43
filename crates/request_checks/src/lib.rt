//! Tests of the names that spans give, and of the requests of spans, by public calls alone.
#![tactic(auto)]

#[cfg(test)]
mod names;
#[cfg(test)]
mod requests;
#[cfg(test)]
mod rows;
