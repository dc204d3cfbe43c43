use crate::Amount;
use trace_types::{NameText, Text};

/// A box of the model: a name, or a task, whose events are empty.
#[derive(Debug, Drop)]
pub struct BoxRow {
    /// Its number, from 0.
    pub number: Amount,
    /// Its name.
    pub name: NameText,
}

/// The relations between the names of two boxes.
#[derive(Debug, Drop)]
pub struct BetweenRow {
    /// The box of the first names.
    pub first: Amount,
    /// The box of the second names.
    pub second: Amount,
    /// How many pairs of names are in one load.
    pub both: Amount,
    /// In how many of them the first happens before the second.
    pub before: Amount,
    /// How many of them are mutually exclusive.
    pub exclusive: Amount,
    /// The first overlap, if there is one.
    pub overlap: Option<OverlapPart>,
}

/// Where two names overlap first.
#[derive(Debug, Drop)]
pub struct OverlapPart {
    /// The day of the load.
    pub day: Amount,
    /// Its number on this day, from 0.
    pub index: Amount,
    /// Its request.
    pub request: Text,
}

/// Two tasks that are a pipeline.
#[derive(Debug, Drop)]
pub struct PipeRow {
    /// The first task.
    pub first: Text,
    /// The second task.
    pub second: Text,
}
