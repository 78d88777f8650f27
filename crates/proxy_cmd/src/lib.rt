//! The commands of the proxy that need no network.
#![tactic(auto)]

mod commands;
mod usage;

pub use commands::offline;
