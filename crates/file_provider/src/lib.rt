//! Configuration files: TOML text as an untyped tree, and as a configuration.
#![tactic(auto)]

mod config;
mod document;
#[cfg(test)]
mod tests;
mod trees;

pub use config::{FileFault, PollFault, poll_file, read_file_config};
pub use document::{ReadTreeFault, read_tree};
