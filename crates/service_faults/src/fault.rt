//! Why a service is disabled.

/// Why a service is disabled: the first of these reasons that stands against it.
#[derive(Clone, Copy, Debug, PartialEq, Eq)]
pub enum ServiceFault {
    /// Its kind or one of its options is not supported.
    Unsupported,
    /// It has more than 64 servers or services, a mirroring one's main service counted.
    TooManyChildren,
    /// The first server whose URL can't be used is under `https://` or `h2c://`.
    Scheme,
    /// The first server whose URL can't be used has none of `http`.
    BadUrl,
    /// Its weights, divided by what they have in common, sum up to more than 65,536.
    WeightsTooLarge,
    /// A service that it names isn't declared.
    Missing,
    /// It reaches itself.
    Cycle,
    /// A service that it names is disabled.
    Child,
    /// Its tree is more than 8 services deep, or has more than 64 of them, each counted as often as it stands there.
    TooDeep,
}
