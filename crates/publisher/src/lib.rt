//! What stands between providers and published configurations: for now, where a provider's file is loaded from.
#![tactic(auto)]

mod files;
mod memory_files;
mod std_files;
#[cfg(test)]
mod tests;

pub use files::{Files, Load, LoadStep};
pub use memory_files::MemoryFiles;
pub use std_files::StdFiles;
