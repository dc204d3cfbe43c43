//! Tests of reports on the kept traces, by public calls alone: the figures of latencies, the slowest
//! traces, and how many workers share the work.
#![tactic(auto)]

#[cfg(test)]
mod books;
#[cfg(test)]
mod latencies;
#[cfg(test)]
mod limits;
#[cfg(test)]
mod slow_traces;
