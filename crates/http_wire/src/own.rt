//! The replies that the proxy makes by itself: errors with one line of text, and redirects.
ghost use Rattle.std.specs.Prelude.{◌≡◌, ◌↔◌, ◌||◌, ◌∷◌, [], IfOk, IsTrue, IsSome, option_map, length};
ghost use Rattle.std.specs.Str.{str_to_ascii_lowercase};
ghost use Rattle.http_wire.specs.Own.{is_redirect, is_own_error, own_reason, own_words, content_of, IsOwnReply};

use crate::lines::FieldLines;
use crate::message::Reply;
use body_codec::Framing;
use px_base::{Bytes, Memory, print_decimal};
use std::alloc::Global;

/// The head of an own reply: with a location exactly where it is a redirect (301, 302, 307, 308).
///
/// The content that goes with any other one is `own_content`'s; a redirect has none.
pub fn own_reply(alloc: Global, status: u16, location: Option<&[u8]>) -> Result<Reply, Memory>
    requires known { IsTrue (is_redirect status || is_own_error status) }
    requires located { IsTrue (is_redirect status) ↔ IsSome location }
    ensures { IfOk result (IsOwnReply status (option_map (λ text. text.now) location.entry)) }
{
    match location {
        Some(location) => redirect(alloc, status, location),
        None => error(alloc, status),
    }
}

/// The content of an own reply that is no redirect: the status and its reason, as one line.
pub fn own_content(alloc: Global, status: u16) -> Result<Vec<u8>, Memory>
    requires { IsTrue (is_own_error status) }
    ensures { IfOk result (λ text. text.items ≡ content_of status) }
{
    let words = content_words(alloc, status)?;
    let mut text = Vec::new(alloc);
    print_decimal(status as u64, &mut text)?;
    text.extend_from_slice(b" ")?;
    text.extend_from_slice(words.as_slice())?;
    text.extend_from_slice(b"\n")?;
    Ok(text)
}

fn content_words(alloc: Global, status: u16) -> Result<Vec<u8>, Memory>
    ensures { IfOk result (λ words. words.items ≡ own_words status) }
{
    lowered(alloc, words_of(status))
}

// What the content says behind the status, perhaps with capitals.
fn words_of(status: u16) -> &'static [u8]
    ensures { str_to_ascii_lowercase result.now ≡ own_words status }
{
    if status == 404 {
        b"page not found"
    } else {
        reason_of(status)
    }
}

fn lowered(alloc: Global, text: &[u8]) -> Result<Vec<u8>, Memory>
    ensures { IfOk result (λ lower. lower.items ≡ str_to_ascii_lowercase text.now) }
{
    text.iter().map(|b| b.to_ascii_lowercase()).collect(alloc)
}

fn reason_of(status: u16) -> &'static [u8]
    ensures { result.now ≡ own_reason status }
{
    match status {
        301 => b"Moved Permanently",
        302 => b"Found",
        307 => b"Temporary Redirect",
        308 => b"Permanent Redirect",
        400 => b"Bad Request",
        403 => b"Forbidden",
        404 => b"Not Found",
        413 => b"Content Too Large",
        429 => b"Too Many Requests",
        431 => b"Request Header Fields Too Large",
        501 => b"Not Implemented",
        502 => b"Bad Gateway",
        503 => b"Service Unavailable",
        _ => b"Gateway Timeout",
    }
}

// How long the content of an own error is: three digits, a blank, the words and a line end.
fn content_len(status: u16) -> u64
    requires { IsTrue (is_own_error status) }
    ensures { result ≡ length (content_of status) }
{
    words_of(status).len() as u64 + 5
}

fn error(alloc: Global, status: u16) -> Result<Reply, Memory>
    requires { IsTrue (is_own_error status) }
    ensures { IfOk result (IsOwnReply status None) }
{
    reply_of(
        alloc,
        status,
        b"Content-Type",
        b"text/plain; charset=utf-8",
        content_len(status),
    )
}

fn redirect(alloc: Global, status: u16, location: &[u8]) -> Result<Reply, Memory>
    ensures { IfOk result (IsOwnReply status (Some location.now)) }
{
    reply_of(alloc, status, b"Location", location, 0)
}

// A reply with this one line and content of this length.
fn reply_of(
    alloc: Global,
    status: u16,
    name: &[u8],
    value: &[u8],
    len: u64,
) -> Result<Reply, Memory>
    ensures { IfOk result (λ a. (a.status ≡ status) × (a.reason ≡ own_reason status)
        × (a.lines ≡ (name.now, value.now) ∷ []) × (a.framing ≡ Framing.Length len)) }
{
    let reason = Bytes::from_slice(alloc, reason_of(status))?;
    let mut lines = FieldLines::new(alloc);
    lines.push(name, value)?;
    Ok(Reply {
        status,
        reason,
        lines,
        framing: Framing::Length(len),
    })
}
