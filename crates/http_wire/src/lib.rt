//! Whole messages of HTTP/1.1: requests and replies as values, and how they are spelled.
#![tactic(auto)]

mod fields;
mod framing;
mod lines;
mod message;
mod own;
mod replies;
mod requests;
mod spell;
mod targets;

pub use lines::FieldLines;
pub use message::{Reply, Request};
pub use own::{own_content, own_reply};
pub use replies::{ReplyFault, ReplyRefused, is_interim_status, take_reply};
pub use requests::{HeadFault, RequestRefused, take_request};
pub use spell::{request_head, spell_reply, spell_request};
pub use targets::{host_of_rules, without_port};
