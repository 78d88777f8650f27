//! The links of a system.
use px_base::Bytes;

/// A link, by its number from 0.
#[derive(Drop)]
pub struct Link {
    /// The place of its connection among all that came, from 0.
    pub owner: usize,
    /// The server that it was dialled to; none for a client's link.
    pub to: Option<Authority>,
    /// The bytes that it took.
    pub sent: Vec<u8>,
}

/// A server, by the host as its URL has it.
#[derive(Debug, Drop)]
pub struct Authority {
    pub host: Bytes,
    pub port: u16,
}
