use evidence_rules::{Between, PairRow, Sharing};

/// The rows of each kind, in the order in which they are printed.
#[derive(Drop)]
pub struct EvidenceRows {
    /// The first name happens before the second.
    pub orders: Vec<PairRow<Between>>,
    /// The two names are mutually exclusive, with no fixed order.
    pub exclusions: Vec<PairRow<Between>>,
    /// Elements pass from the first task to the second.
    pub pipes: Vec<PairRow<Sharing>>,
    /// Few traces refute that the first name happens before the second.
    pub nearly_orders: Vec<PairRow<Between>>,
    /// Few traces refute that the two names are mutually exclusive.
    pub nearly_exclusions: Vec<PairRow<Between>>,
    /// Few traces refute that elements pass from the first task to the second.
    pub nearly_pipes: Vec<PairRow<Sharing>>,
}
