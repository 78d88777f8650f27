//! A server that requests are sent to.
use crate::Bytes;

/// A server: where its links are dialled to, and its weight among the servers of its balancer.
#[derive(Debug, Drop)]
pub struct Server {
    /// The host as written in the server's URL.
    pub host: Bytes,
    pub port: u16,
    pub weight: u32,
}
