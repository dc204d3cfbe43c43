/// The segments with one name on the critical paths of slow traces, and on those of the rest. Times
/// are in nanoseconds.
#[derive(Clone, Copy, Debug, PartialEq, Eq)]
pub struct TailRow {
    /// The number of the name in the catalogue.
    pub name: u32,
    /// On how many critical paths of slow traces there is one.
    pub slow_on: u32,
    /// How long they last there together.
    pub slow_sum: u128,
    /// On how many critical paths of the other traces there is one.
    pub rest_on: u32,
    /// How long they last there together.
    pub rest_sum: u128,
}
