use std::marker::Model;
use trace_types::Trace;

/// A kept trace as clauses see it, for laws alone: no value of it is made.
#[derive(Drop)]
pub struct KeptTrace {
    trace: Trace,
    grace: u64,
}

impl Model for KeptTrace {
    ghost use Rattle.session_rules.specs.KeptTraces.{Kept};

    ghost Value = { Kept };

    ghost view = { λ k. record { trace = k.trace; grace = k.grace } };
}
