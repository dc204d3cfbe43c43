use span_names::Piece;

/// A step of a thread of control, by the index of a call.
#[derive(Clone, Copy, Debug, PartialEq, Eq)]
pub enum Step {
    /// The call starts.
    Starts { call: usize },
    /// The call ends.
    Ends { call: usize },
    /// Its caller forks calls, of which this is the first.
    Forks { call: usize },
    /// Its caller joins calls, of which this one ends last, and goes on in the piece.
    Joins { call: usize, piece: Piece },
}
