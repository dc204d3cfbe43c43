//! The calls of requests, each caller before what it calls, as their callers see them in time.
#![tactic(auto)]

mod asking;
mod call;
mod call_key;
mod calls;
mod listing;
mod positions;
mod seeing;

pub use call::Call;
pub use calls::find_calls;
