//! Message bodies in pieces: which bytes of a piece are content, where the body ends, and the
//! spelling of chunks. Nothing here knows a head, a link or a clock.
#![tactic(auto)]

mod byte_classes;
mod laws;
mod phases;
mod reading;
mod writing;

pub use laws::{cuts_do_not_matter, reading_follows_the_grammar, writing_is_read_back};
pub use phases::Phase;
pub use reading::{Body, BodyStep, Framing};
pub use writing::{write_chunk, write_last};

/// Memory ran out.
pub type Memory = std::alloc::AllocError;

#[cfg(test)]
mod tests;
