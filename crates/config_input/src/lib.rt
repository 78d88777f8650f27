//! The configuration that a command is given.
#![tactic(auto)]

mod fault;
mod reading;

pub use fault::NoConfig;
pub use reading::read_config;
