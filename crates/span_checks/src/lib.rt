//! Tests of the readers of spans: small files of the three forms, and the spans or the first fault
//! that another reader of these forms gives of them.
#![tactic(auto)]

#[cfg(test)]
mod jaeger;
#[cfg(test)]
mod otlp;
#[cfg(test)]
mod otlp_faults;
#[cfg(test)]
mod rows;
#[cfg(test)]
mod zipkin;
