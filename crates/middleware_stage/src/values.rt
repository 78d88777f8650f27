//! The values that a middleware can have.
ghost use Rattle.std.specs.Prelude.{◌≡◌, ◌↔◌, IsTrue, IsUtf8};
ghost use Rattle.std.specs.List.{list_all};
ghost use Rattle.head_view.specs.Lines.{has_name};
ghost use Rattle.http_wire.specs.Fields.{is_hop_by_hop as has_connection_name};
ghost use Rattle.middleware_stage.specs.Faults.{IsBadRewrite};
ghost use Rattle.middleware_stage.specs.Lawful.{is_framing_name, is_settable as may_be_set};

use px_base::{Bytes, List, fold_equal};

/// The most bytes that a pattern has.
const MAX_PATTERN: usize = 512;

/// Whether each of the lines may be set or removed.
pub(crate) fn are_settable(lines: &List<(Bytes, Bytes)>) -> bool
    ensures { result ≡ list_all may_be_set lines.now }
{
    lines
        .iter()
        .all(|line| is_settable(line.0.as_slice(), line.1.as_slice()))
}

// Whether a line of this name and this value may be set, or removed where the value is empty.
fn is_settable(name: &[u8], value: &[u8]) -> bool
    ensures { result ≡ may_be_set (name.now, value.now) }
{
    httparse::is_token(name)
        && name.len() <= 65_535
        && httparse::is_header_value(value)
        && !has_framing_name(name)
        && (value.is_empty() || !is_hop_by_hop(name))
}

fn has_framing_name(name: &[u8]) -> bool
    ensures { result ≡ is_framing_name (name.now, name.now) }
{
    fold_equal(name, b"Content-Length")
        || fold_equal(name, b"Connection")
        || fold_equal(name, b"Transfer-Encoding")
}

// Whether the field is a matter of one connection alone (RFC 9110 section 7.6.1).
fn is_hop_by_hop(name: &[u8]) -> bool
    ensures { result ≡ has_connection_name (name.now, name.now) }
{
    fold_equal(name, b"Connection")
        || fold_equal(name, b"Keep-Alive")
        || fold_equal(name, b"Proxy-Connection")
        || fold_equal(name, b"TE")
        || fold_equal(name, b"Trailer")
        || fold_equal(name, b"Transfer-Encoding")
        || fold_equal(name, b"Upgrade")
}

/// Whether a pattern is too long, or the template that goes with it is no text.
pub(crate) fn is_bad_rewrite(regex: &[u8], replacement: &[u8]) -> bool
    ensures { IsTrue result ↔ IsBadRewrite regex.now replacement.now }
{
    regex.len() > MAX_PATTERN || !is_text(replacement)
}

fn is_text(bytes: &[u8]) -> bool
    ensures { IsTrue result ↔ IsUtf8 bytes.now }
{
    std::str::from_utf8(bytes).is_ok()
}
