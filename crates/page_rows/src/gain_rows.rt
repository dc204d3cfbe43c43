use crate::Amount;
use trace_types::NameText;

/// What the critical paths would lose if one name took less time.
#[derive(Debug, Drop)]
pub struct GainRow {
    /// The name.
    pub name: NameText,
    /// If it took no time.
    pub none: Amount,
    /// If it took half of its time.
    pub half: Amount,
}

/// The slack of one name.
#[derive(Debug, Drop)]
pub struct RoomRow {
    /// The name.
    pub name: NameText,
    /// How many segments have it.
    pub count: Amount,
    /// How many have no slack.
    pub zero: Amount,
    /// The least slack.
    pub least: Amount,
    /// Nine of ten have at least this.
    pub tenth: Amount,
    /// The median.
    pub median: Amount,
    /// One of ten has at least this.
    pub ninetieth: Amount,
    /// The greatest slack.
    pub greatest: Amount,
}
