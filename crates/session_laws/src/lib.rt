//! Laws on what sessions do and print: a job does one thing, jobs end in one way, of their text the
//! watch numbers alone are free, and the lines of an input make jobs that sessions carry out.
#![tactic(auto)]

pub mod laws;
