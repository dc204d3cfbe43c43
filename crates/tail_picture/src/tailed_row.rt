use page_rows::Amount;
use trace_types::NameText;

/// A name on the critical paths of slow loads and of the rest.
#[derive(Debug, Drop)]
pub struct TailedRow {
    /// The name.
    pub name: NameText,
    /// Its mean time on the critical paths of slow loads.
    pub slow: Amount,
    /// Its mean time on those of the rest.
    pub rest: Amount,
}
