//! All connections of a proxy, whatever happens outside and in whatever order: every interleaving.
#![tactic(auto)]

mod choices;
mod clients;
mod draws;
mod drive;
mod event;
mod law;
mod links;
mod lone;
mod on_link;
mod server;
mod system;
#[cfg(test)]
mod tests;
mod timeline;

pub use event::{Event, Kind, Refused};
pub use law::{every_interleaving, picks_lie_end_to_end};
pub use links::{Authority, Link};
pub use system::System;
