//! Why a middleware is disabled.

/// Why a middleware is disabled: the first of these, in their order.
#[derive(Clone, Copy, Debug, PartialEq, Eq)]
pub enum MiddlewareFault {
    /// Its kind or one of its options is not supported.
    Unsupported,
    /// One of its values is none that its kind takes.
    Value,
    /// It has more patterns than are left.
    TooManyPatterns,
    /// Its pattern is none.
    Syntax,
    /// Its pattern is too big.
    TooBig,
    /// One of its members isn't declared.
    Missing,
    /// It leads to itself.
    Cycle,
    /// One of its members is disabled.
    Child,
    /// It stands for chains within chains more than 8 deep, or for more than 64 middlewares.
    TooDeep,
}
