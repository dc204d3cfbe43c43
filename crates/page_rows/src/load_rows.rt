use crate::Amount;
use trace_types::{NameText, Text};

/// A load that is shown.
#[derive(Debug, Drop)]
pub struct LoadRow {
    /// Why it is: `median`, `p95` or `slowest`.
    pub pick: Text,
    /// Its rank among all, from 0, the quickest first.
    pub rank: Amount,
    /// Its request.
    pub request: Text,
    /// Its day since 1970.
    pub day: Amount,
    /// Its number on this day, from 0.
    pub index: Amount,
    /// Its latency.
    pub latency: Amount,
    /// The length of its critical path.
    pub length: Amount,
    /// How many segments it has.
    pub vertices: Amount,
    /// How many of them are on its critical path.
    pub steps: Amount,
    /// How many edges its graph has.
    pub edges: Amount,
}

/// A segment of a load that is shown.
#[derive(Debug, Drop)]
pub struct BarRow {
    /// Its number in the load, from 0.
    pub number: Amount,
    /// Its name.
    pub name: NameText,
    /// When it starts, after the load's first event.
    pub start: Amount,
    /// How long it lasts.
    pub duration: Amount,
    /// How much longer it could last.
    pub slack: Amount,
    /// Whether it is on the critical path: 1 or 0.
    pub on_path: Amount,
}
