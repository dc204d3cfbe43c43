//! What an import of event lines writes is read again: laws over the definitions alone.
#![tactic(auto)]

pub mod laws;
