//! The outside of the proxy as its worker sees it: links, a clock, what a connection notes, and the text of a note.
#![tactic(auto)]

mod note;
mod plan;
mod shown;
#[cfg(test)]
mod tests;
mod text;
mod world;

pub use note::{Cause, EndCause, HeadName, Look, NodePick, NodeTurn, Note, NoteBody, RequestNote};
pub use plan::{ConsulAt, Listen, PollPlan, ServePlan};
pub use text::note_text;
pub use world::{Arrival, LinkRead, LinkWrite, WaitFailed, World};
