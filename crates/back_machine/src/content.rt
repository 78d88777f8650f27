//! Which bytes of a piece are content.
ghost use Rattle.std.specs.Prelude.{◌≡◌, ◌-◌, ◌≤◌, length, min};

/// The bytes of a piece that are content of the reply: the `len` bytes from `from` on.
#[derive(Clone, Copy, Debug, PartialEq, Eq)]
pub struct Content {
    pub from: usize,
    pub len: usize,
}

// The content in a piece of which the first bytes are of the head, where so many bytes of content are left.
pub(crate) fn content_from(from: usize, piece: &[u8], left: usize) -> Content
    requires { from ≤ length piece.now }
    ensures from { result.from ≡ from }
    ensures len { result.len ≡ min left (length piece.now - from) }
{
    Content {
        from,
        len: left.min(piece.len() - from),
    }
}
