/// How much the longest length of a graph loses once one vertex weighs less.
#[derive(Clone, Copy, Debug, PartialEq, Eq)]
pub struct Gain {
    /// With no weight.
    pub none: u128,
    /// With half its weight, rounded down.
    pub half: u128,
}
