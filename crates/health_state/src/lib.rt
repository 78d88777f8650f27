//! Which servers of a balancer are up, by the verdicts of their probes, and which probe is due. It knows
//! nothing of links, clocks or how a probe is made.
#![tactic(auto)]

#[cfg(test)]
mod tests;
mod verdicts;

/// The only error of a call that takes memory.
pub type Memory = std::alloc::AllocError;

pub use verdicts::{Verdicts, mask_law};
