//! What one read and one write did.
/// What one read gave.
#[derive(Clone, Copy, Debug, PartialEq, Eq)]
pub enum ReadStep {
    /// So many bytes, at least one, at the front of the room.
    Got(usize),
    /// Nothing is left.
    End,
    /// The source failed, and gave nothing.
    Failed,
}

/// What one write took.
#[derive(Clone, Copy, Debug, PartialEq, Eq)]
pub enum WriteStep {
    /// So many bytes, at least one, from the front of the piece.
    Took(usize),
    /// The sink failed, and took nothing.
    Failed,
}
