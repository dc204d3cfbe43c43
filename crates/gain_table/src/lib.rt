//! What the segments with each name gain over traces: how much shorter their critical paths would be
//! together if these took no time, and if they took half.
#![tactic(auto)]

mod adding;
mod gain_row;
mod sums;

pub use gain_row::GainRow;
pub use sums::sum_gains;
