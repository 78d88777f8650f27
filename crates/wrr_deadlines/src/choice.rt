//! A choice among the children that are up.

ghost use Rattle.std.specs.Prelude.{ℕ, ◌<◌, ◌≤◌, ◌↔◌, length, IsTrue, IsBitSet};

/// A pop of a child that is up. Each pop after the first `from` and before this one was of a child
/// that is down, and is passed over.
#[derive(Clone, Copy, Debug, PartialEq, Eq)]
pub struct Pick {
    /// How many pops were taken before.
    pub from: u64,
    /// The number of the pop, from 1: how many pops are taken now.
    pub to: u64,
    /// The child that it is of.
    pub child: u32,
}

/// What a schedule answers when it is asked for a child that is up.
#[derive(Clone, Copy, Debug, PartialEq, Eq)]
pub enum Drawn {
    /// The next pop of a child that is up.
    Pick(Pick),
    /// No child of positive weight is up.
    NoneUp,
    /// A whole period more would pass 2^62 pops, the last that a schedule gives.
    Spent,
}

/// Whether child `child` is in the mask.
pub(crate) fn is_up(mask: u64, child: u32) -> bool
    requires { child < 64 }
    ensures { IsTrue result ↔ IsBitSet mask child }
{
    (mask >> child) & 1 == 1
}
