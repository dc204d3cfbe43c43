ghost use Rattle.std.specs.Prelude.{◌↔◌, All, IsTrue};
ghost use Rattle.what_if.specs.ForecastLaws.{IsNoGreater};

/// The segments of one name take `num / den` of their time, rounded down.
#[derive(Clone, Copy, Debug, PartialEq, Eq)]
pub struct Change {
    /// The number of the name.
    pub name: u32,
    /// The numerator, at most the denominator.
    pub num: u32,
    /// The denominator, at least 1.
    pub den: u32,
}

/// Tells whether each change has a denominator of 1 or more and a numerator that is not greater, as
/// `predict` requires. It takes no memory.
pub fn are_no_greater(changes: &[Change]) -> bool
    ensures { IsTrue result ↔ All IsNoGreater changes.now }
{
    changes.iter().all(|c| 0 < c.den && c.num <= c.den)
}
