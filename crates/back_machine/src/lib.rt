//! One exchange with a backend, as a machine that is fed bytes in any pieces: the request's head goes out, a reply comes
//! in. Nothing here knows a link or a clock.
#![tactic(auto)]

mod back;
mod content;
mod laws;
mod reading;
mod state;

pub use back::Back;
pub use content::Content;
pub use laws::{cuts_do_not_matter, replies_are_unique};
pub use state::{BackCause, BackState};
