//! What a chain makes of a request.
use http_wire::Request;
use px_base::Bytes;

/// What becomes of a request in a chain.
#[derive(Drop)]
pub enum Flow {
    /// It goes on as this request. Its body may have so many bytes, where a middleware limits it.
    Pass {
        request: Request,
        body_limit: Option<u64>,
    },
    /// The middleware with this place in the flattened chain stops it, and the proxy answers it by itself: with a location
    /// exactly where it is redirected.
    Stop {
        place: u32,
        status: u16,
        location: Option<Bytes>,
    },
}
