//! How paths and locations are written.
ghost use Rattle.std.specs.Prelude.{◌≡◌, ◌++◌, ◌<◌, IfOk, OnOk};
ghost use Rattle.std.specs.List.{list_all};
ghost use Rattle.middleware_stage.specs.Paths.{begins_with_slash, byte_text, escape_of, escaped, hex_digit as digit_of, is_path_byte as may_be_in_path, is_visible as may_be_seen, location_text, new_path};

use px_base::{Bytes, Memory};
use std::alloc::Global;

/// The path of this text: with a slash before it where it has none, and escaped.
pub(crate) fn path_of(alloc: Global, front: &[u8], rest: &[u8]) -> Result<Bytes, Memory>
    ensures { IfOk result (λ path. path ≡ new_path (front.now ++ rest.now)) }
{
    let room = front.len().saturating_add(rest.len()).saturating_add(1);
    let mut path = Vec::with_capacity(alloc, room)?;
    if !is_rooted(front, rest) {
        path.push(b'/')?;
    }
    push_path(front, &mut path)?;
    push_path(rest, &mut path)?;
    Ok(Bytes::from_vec(path))
}

// Whether the two texts together begin with a slash.
fn is_rooted(front: &[u8], rest: &[u8]) -> bool
    ensures { result ≡ begins_with_slash (front.now ++ rest.now) }
{
    match front {
        [first, ..] => *first == b'/',
        [] => matches!(rest, [b'/', ..]),
    }
}

// Appends a part of a path.
fn push_path(text: &[u8], out: &mut Vec<u8>) -> Result<(), Memory>
    ensures { OnOk result (out.new.items ≡ out.old.items ++ escaped may_be_in_path text.now) }
{
    if are_path_bytes(text) {
        out.extend_from_slice(text)?;
        return Ok(());
    }
    for byte in text {
        push_path_byte(*byte, out)?;
    }
    Ok(())
}

fn are_path_bytes(text: &[u8]) -> bool
    ensures { result ≡ list_all may_be_in_path text.now }
{
    text.iter().all(|b| is_path_byte(*b))
}

fn push_path_byte(byte: u8, out: &mut Vec<u8>) -> Result<(), Memory>
    ensures { OnOk result (out.new.items ≡ out.old.items ++ byte_text may_be_in_path byte) }
{
    if is_path_byte(byte) {
        out.push(byte)?;
    } else {
        push_escape(byte, out)?;
    }
    Ok(())
}

/// The text as it stands in `Location`.
pub(crate) fn location_of(alloc: Global, target: &[u8]) -> Result<Bytes, Memory>
    ensures { IfOk result (λ location. location ≡ location_text target.now) }
{
    let mut location = Vec::with_capacity(alloc, target.len())?;
    for byte in target {
        push_visible_byte(*byte, &mut location)?;
    }
    Ok(Bytes::from_vec(location))
}

fn push_visible_byte(byte: u8, out: &mut Vec<u8>) -> Result<(), Memory>
    ensures { OnOk result (out.new.items ≡ out.old.items ++ byte_text may_be_seen byte) }
{
    if is_visible(byte) {
        out.push(byte)?;
    } else {
        push_escape(byte, out)?;
    }
    Ok(())
}

fn is_path_byte(byte: u8) -> bool
    ensures { result ≡ may_be_in_path byte }
{
    is_visible(byte) && byte != b'?' && byte != b'#'
}

fn is_visible(byte: u8) -> bool
    ensures { result ≡ may_be_seen byte }
{
    byte >= 33 && byte <= 126
}

fn push_escape(byte: u8, out: &mut Vec<u8>) -> Result<(), Memory>
    ensures { OnOk result (out.new.items ≡ out.old.items ++ escape_of byte) }
{
    out.extend_from_slice(&[b'%', hex_digit(byte / 16), hex_digit(byte % 16)])?;
    Ok(())
}

fn hex_digit(value: u8) -> u8
    requires { value < 16 }
    ensures { result ≡ digit_of value }
{
    if value < 10 {
        b'0' + value
    } else {
        b'A' + (value - 10)
    }
}
