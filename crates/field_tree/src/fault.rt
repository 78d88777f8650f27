//! Why a value is not what an option takes.

/// Why a value is not what an option takes.
#[derive(Clone, Copy, PartialEq, Eq, Debug)]
pub enum ValueFault {
    /// It is of another kind.
    Kind,
    /// It is outside the range.
    Range,
}
