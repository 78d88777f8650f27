// What was done at the seats. Only contracts read it, so it takes no memory.
use link_world::{Look, NodePick};

/// What was done at the seat of a number.
#[derive(Clone, Copy)]
pub(crate) enum Told {
    /// The seat was taken, or given up: nothing was done at it.
    Began,
    Looked(Look),
    Drew(NodePick),
}

/// How many pops were taken at a node, under a number.
#[derive(Clone, Copy)]
pub(crate) struct NodeCount {
    pub(crate) number: u64,
    pub(crate) node: u32,
    pub(crate) pops: u64,
}
