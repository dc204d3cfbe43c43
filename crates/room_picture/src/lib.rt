//! The slack of names, as ranges on a scale of growing steps: who can grow unnoticed.
#![tactic(auto)]

pub mod laws;
mod ordering;
mod scale;
mod table;
mod texts;
mod ticks;

pub use ordering::order_rooms;
pub use scale::room_place;
pub use table::push_rooms;
