//! Laws over the definitions alone: each function does nothing, and its contract is the law.
ghost use Rattle.std.specs.Prelude.{◌<◌, ℕ, List, length, All};
ghost use Rattle.trace_types.specs.declared.event.Event.{Event};
ghost use Rattle.trace_types.specs.Batch.{PlainTrace, traces_of};
ghost use Rattle.trace_types.specs.EventLines.{AreOfRequest, LinesRise};
ghost use Rattle.trace_types.specs.Times.{AreTimely};

/// Each trace of a batch has an event, and fewer than so many where the batch has; all its events
/// are of its request, their lines rise where the lines of the batch do, and they are timely where
/// the events of the batch are.
pub fn traces_keep_facts()
    ensures not_empty { (batch : List Event)
        → All (λ (t : PlainTrace). 0 < length t.events) (traces_of batch) }
    ensures of_request { (batch : List Event)
        → All (λ (t : PlainTrace). AreOfRequest t.request t.events) (traces_of batch) }
    ensures rising { (batch : List Event) → LinesRise batch
        → All (λ (t : PlainTrace). LinesRise t.events) (traces_of batch) }
    ensures timely { (batch : List Event) → AreTimely batch
        → All (λ (t : PlainTrace). AreTimely t.events) (traces_of batch) }
    ensures few { (batch : List Event) (count : ℕ) → length batch < count
        → All (λ (t : PlainTrace). length t.events < count) (traces_of batch) }
{}
