//! Middlewares as those see them that have them as members.

use crate::fault::MiddlewareFault;
use px_base::List;

/// What a middleware is to the chains that it is a member of.
#[derive(Drop)]
pub enum Node {
    /// It does something itself.
    Stage,
    /// It is disabled for a reason of its own.
    Faulty(MiddlewareFault),
    /// It stands for these, each by its place among all middlewares; None is one that isn't declared.
    Chain(List<Option<usize>>),
}

/// The middlewares that one stands for, in order, by their places. None where it is disabled.
pub type Flat = Option<List<usize>>;
