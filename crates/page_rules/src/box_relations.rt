/// The relations between the names of two boxes.
#[derive(Clone, Copy, Debug, PartialEq, Eq)]
pub struct BoxRelations {
    /// How many pairs of their names some trace has both of.
    pub both: u32,
    /// How many of these pairs have an order.
    pub before: u32,
    /// How many of these pairs are mutually exclusive with no fixed order.
    pub exclusive: u32,
    /// The index of the first trace in which the names of a pair overlap, counted from 0.
    pub overlap: Option<u32>,
}
