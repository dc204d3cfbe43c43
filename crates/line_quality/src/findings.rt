ghost use Rattle.std.specs.Prelude.{◌≤◌, length};

use crate::BadLine;
use event_lines::Why;

/// The bad lines that were found so far.
#[derive(Debug, Drop)]
pub struct Findings {
    /// The first hundred of them.
    pub first: Vec<BadLine>,
    /// The first reason that holds of each, of all of them.
    pub reasons: Vec<Why>,
    ghost short: { length first.items ≤ 100 },
}
