//! Tests of calls, their contexts and forks, by public calls alone.
#![tactic(auto)]

#[cfg(test)]
mod worked;
