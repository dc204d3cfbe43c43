use trace_types::NameText;

/// The segments of one name take `num / den` of their time, rounded down.
#[derive(Debug, Drop)]
pub struct NamedChange {
    /// The name.
    pub name: NameText,
    /// The numerator, at most the denominator.
    pub num: u32,
    /// The denominator, at least 1.
    pub den: u32,
}
