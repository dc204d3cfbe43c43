//! Tests of `run` over files and sinks in memory: what is written of worked inputs, of event lines
//! and of spans, and how a run ends that meets a bad line or span, or a fault.
#![tactic(auto)]

#[cfg(test)]
mod faults;
#[cfg(test)]
mod page_load;
#[cfg(test)]
mod running;
#[cfg(test)]
mod spans;
