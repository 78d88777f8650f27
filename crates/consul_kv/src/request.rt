//! The request for the keys below a root.
ghost use Rattle.std.specs.Prelude.{◌≡◌, ◌++◌, ◌&&◌, nat_le, length, true, OnOk};
ghost use Rattle.std.specs.List.{list_all};
ghost use Rattle.consul_kv.specs.Requests.{kv_request_text, is_root as is_root_of, is_root_text as is_root_text_of, has_plain_ends as has_plain_ends_of, is_root_byte};

use px_base::Memory;

/// Whether a text can be the root of the keys: 1 to 255 letters, digits, `-`, `_`, `.` and `/`, with `/` neither first nor
/// last.
pub fn is_root(root: &[u8]) -> bool
    ensures { result ≡ is_root_of root.now }
{
    is_root_text(root) && has_plain_ends(root)
}

fn is_root_text(root: &[u8]) -> bool
    ensures { result ≡ is_root_text_of root.now }
{
    has_root_len(root) && has_root_bytes(root)
}

fn has_root_len(root: &[u8]) -> bool
    ensures { result ≡ (nat_le 1 (length root.now) && nat_le (length root.now) 255) }
{
    root.len() >= 1 && root.len() <= 255
}

fn has_root_bytes(root: &[u8]) -> bool
    ensures { result ≡ list_all is_root_byte root.now }
{
    root.iter().all(|b| is_root_byte(*b))
}

fn has_plain_ends(root: &[u8]) -> bool
    requires { is_root_text_of root.now ≡ true }
    ensures { result ≡ has_plain_ends_of root.now }
{
    root[0] != b'/' && root[root.len() - 1] != b'/'
}

fn is_root_byte(b: u8) -> bool
    ensures { result ≡ is_root_byte b }
{
    b.is_ascii_alphanumeric() || b == b'-' || b == b'_' || b == b'.' || b == b'/'
}

#[tactic(auto, using(std::proofs::Common::append_assoc))]
/// Appends the request to an agent for all keys below a root. Where memory runs out, a part of it may stand there.
pub fn kv_request(root: &str, authority: &[u8], out: &mut Vec<u8>) -> Result<(), Memory>
    ensures { OnOk result (out.new.items ≡ out.old.items ++ kv_request_text root.now authority.now) }
{
    out.extend_from_slice(b"GET /v1/kv/")?;
    out.extend_from_slice(root.as_bytes())?;
    out.extend_from_slice(b"?recurse=true HTTP/1.1\r\nHost: ")?;
    out.extend_from_slice(authority)?;
    out.extend_from_slice(b"\r\nConnection: close\r\n\r\n")
}
