//! Configurations out of Consul's store of keys and values: the reply of its agent for the keys below a root, and the
//! request for it. It knows nothing of links.
#![tactic(auto)]

mod clash;
mod config;
mod depth;
mod element;
mod grow;
mod keys;
mod request;
#[cfg(test)]
mod tests;

pub use config::{KvFault, read_kv};
pub use request::{is_root, kv_request};
