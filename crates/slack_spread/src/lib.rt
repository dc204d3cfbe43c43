//! How the slacks of one name's segments are spread: how many there are, how many are 0, and the
//! members at the ends and at tenths of the way along them in rising order.
#![tactic(auto)]

mod measuring;
mod spread;

pub use measuring::measure_spread;
pub use spread::Spread;
