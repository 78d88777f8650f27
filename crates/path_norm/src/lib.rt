//! The normal form of a request's path (RFC 3986 sections 5.2.4 and 6.2.2): what the rules of
//! routers are asked about, so that a path can't be spelled past a rule.
#![tactic(auto)]

mod escapes;
mod normal;
mod segments;
#[cfg(test)]
mod tests;

pub use normal::{PathFault, normal_paths_are_normal, normalise};

/// Memory ran out.
pub type Memory = std::alloc::AllocError;
