//! The machine of one client connection.
#![tactic(auto)]

mod boxed;
mod conn;
mod event;
mod exchange;
mod heads;
mod notes;
mod own;
mod parts;
mod passing;
mod pins;
mod relay;
mod replies;
mod step;
mod walks;
mod wants;

pub use boxed::{BoxedAim, BoxedBack, BoxedRequest};
pub use conn::Conn;
pub use event::{BackEvent, BackShape, ConnEvent, EventKind, EventShape, StateName};
pub use parts::{Aim, Asked, Client, Current, Phase, Stage};
pub use step::BUFFER_LIMIT;
pub use wants::Want;
