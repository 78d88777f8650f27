//! A chain of middlewares that can be used.
ghost use Rattle.std.specs.Prelude.{◌≤◌, length};

use px_base::List;

/// The middlewares that a list of names stands for, in order, by their places among those that it was made of. There are at most
/// 64.
#[derive(Drop)]
pub struct Chain {
    pub(crate) places: List<usize>,
    pub(crate) ghost few: { length places ≤ 64 },
}
