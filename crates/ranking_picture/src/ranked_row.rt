use page_rows::Amount;
use trace_types::NameText;

/// A segment that is on a critical path.
#[derive(Debug, Drop)]
pub struct RankedRow {
    /// Its name.
    pub name: NameText,
    /// On how many critical paths it is.
    pub on_path: Amount,
    /// How long it lasts there together.
    pub critical: Amount,
    /// What the critical paths would lose if it took no time.
    pub none: Amount,
    /// What they would lose if it took half of its time.
    pub half: Amount,
}
