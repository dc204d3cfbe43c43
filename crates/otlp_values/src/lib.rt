//! The spans that a JSON value of OpenTelemetry's protocol has.
#![tactic(auto)]

mod kinds;
mod resources;
mod span_reading;
mod values;

pub use values::read_value;
