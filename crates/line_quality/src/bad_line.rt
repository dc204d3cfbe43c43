use crate::Member;
use event_lines::Why;

/// A bad line.
#[derive(Clone, Copy, Debug, PartialEq, Eq)]
pub struct BadLine {
    /// The index of its file, from 0.
    pub file: u32,
    /// Its number in this file, from 1; blank lines are counted.
    pub line: u32,
    /// The first reason that holds of it.
    pub why: Why,
    /// The first member that the reason is due to.
    pub member: Member,
}
