//! Which turns a mirror gets by its percent, and which side a failover takes. It knows nothing of
//! services, requests or links.
#![tactic(auto)]

mod counts;
mod failover;
mod share;
#[cfg(test)]
mod tests;

/// The only error of a call that takes memory.
pub type Memory = std::alloc::AllocError;

pub use counts::{Counts, DrawnMirror};
pub use failover::{Side, first_available};
pub use share::{mirror_share, selected};
