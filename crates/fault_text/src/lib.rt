//! The texts of faults, as commands print them: of a configuration file, and of a router.
#![tactic(auto)]

mod file;
mod router;
#[cfg(test)]
mod tests;

pub use file::push_file_fault;
pub use router::push_router_fault;
