//! The world of real sockets.
#![tactic(auto)]

mod access;
mod address;
mod notes;
mod slot;
mod sockets;
mod table;
#[cfg(test)]
mod tests;
mod world;

pub use access::Access;
pub use world::{BindFault, MioWorld};
