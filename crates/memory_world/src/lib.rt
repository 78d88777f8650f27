//! A world in memory: a script of what comes, and the log of what was done.
#![tactic(auto)]

mod book;
mod mark;
mod record;
mod script;
#[cfg(test)]
mod tests;
mod told;
mod world;

pub use record::Record;
pub use script::Given;
pub use world::MemoryWorld;
