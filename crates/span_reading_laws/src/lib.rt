//! What an import of spans writes is read again: a law over the definitions alone.
#![tactic(auto)]

pub mod laws;
