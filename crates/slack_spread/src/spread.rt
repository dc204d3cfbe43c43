/// How numbers are spread; in times, in nanoseconds. Of no numbers each is 0.
#[derive(Clone, Copy, Debug, PartialEq, Eq)]
pub struct Spread {
    /// How many there are.
    pub count: u32,
    /// How many of them are 0.
    pub zero: u32,
    /// The least.
    pub least: u128,
    /// The one a tenth of the way along them in rising order.
    pub tenth: u128,
    /// The one in the middle, of two the lower.
    pub median: u128,
    /// The one nine tenths of the way along them in rising order.
    pub ninetieth: u128,
    /// The greatest.
    pub greatest: u128,
}
