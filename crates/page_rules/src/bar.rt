/// A segment of a load that is shown; times are in nanoseconds.
#[derive(Clone, Copy, Debug, PartialEq, Eq)]
pub struct Bar<N> {
    /// Its name.
    pub name: N,
    /// When it starts, after the earliest segment of its trace.
    pub start: u64,
    /// How long it lasts.
    pub duration: u64,
    /// By how much it could last longer so that the critical path stays as long.
    pub slack: u128,
    /// Whether it is on the critical path.
    pub on_path: bool,
}
