//! Requests and replies, without their bodies.
use crate::lines::FieldLines;
use body_codec::Framing;
use px_base::Bytes;

/// A request as it goes through the proxy.
#[derive(Debug, Drop)]
pub struct Request {
    pub method: Bytes,
    /// The host text: what stood in `Host` or in the authority of an absolute target.
    pub host: Bytes,
    /// The normalised path, which begins with `/`.
    pub path: Bytes,
    /// What stood behind the first `?` of the target.
    pub query: Option<Bytes>,
    pub lines: FieldLines,
    pub framing: Framing,
    /// The minor version: 1 for `HTTP/1.1`.
    pub version: u8,
    /// Whether the client's connection may go on after the reply.
    pub keep: bool,
}

/// A reply's head.
#[derive(Debug, Drop)]
pub struct Reply {
    pub status: u16,
    pub reason: Bytes,
    pub lines: FieldLines,
    pub framing: Framing,
}
