//! The configurations of all providers as one.
#![tactic(auto)]

mod alone;
mod both;
mod copying;
mod latest;
mod message;
mod providers;
mod union;

pub use alone::{declares_nothing, merge_file};
pub use both::merge;
pub use copying::{copy_health, copy_sticky};
pub use latest::{Changed, accept, copy, merge_latest};
pub use message::Message;
pub use providers::Latest;
