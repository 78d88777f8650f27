//! How messages are spelled, byte for byte (RFC 9112): requests to a backend, replies to a client.
ghost use Rattle.std.specs.Prelude.{◌≡◌, ◌++◌, OnOk, OnErr, IfOk, codes};
ghost use Rattle.std.specs.Fmt.{decimal};
ghost use Rattle.http_wire.specs.Lines.{Keeps, crlf, field_text};
ghost use Rattle.http_wire.specs.Spelling.{target_text, request_framing, request_line, request_text, reply_framing, close_text, status_line, reply_text};

use crate::message::{Reply, Request};
use body_codec::Framing;
use px_base::{Bytes, Memory, print_decimal};
use std::alloc::{AllocError, Global};

/// As many bytes as the fixed parts of a head have at most, and the fields that frame its body.
const FIXED_ROOM: usize = 128;

/// Appends the head of a request as it goes to a backend, with `Connection: close`.
///
/// `Host` is the request's host text where `pass_host` is set, else `authority`. Where memory runs out nothing is
/// appended.
pub fn spell_request(
    alloc: Global,
    request: &Request,
    authority: &[u8],
    pass_host: bool,
    out: &mut Vec<u8>,
) -> Result<(), Memory>
    ensures ok { OnOk result (out.new.items ≡ out.old.items ++ request_text request.now authority.now pass_host) }
    ensures err { OnErr result (out.new.items ≡ out.old.items) }
{
    let text = request_head(alloc, request, authority, pass_host)?;
    out.extend_from_slice(text.as_slice())
}

/// Appends the head of a reply as it goes to a client of this minor version, with `Connection: close` or without.
///
/// Where memory runs out nothing is appended.
pub fn spell_reply(reply: &Reply, version: u8, close: bool, out: &mut Vec<u8>) -> Result<(), Memory>
    ensures ok { OnOk result (out.new.items ≡ out.old.items ++ reply_text reply.now version close) }
    ensures err { OnErr result (out.new.items ≡ out.old.items) }
{
    out.reserve(reply_room(reply))?;
    let had = out.as_slice().len();
    match push_reply(reply, version, close, out) {
        Ok(()) => Ok(()),
        Err(AllocError) => {
            out.truncate(had);
            Err(AllocError)
        }
    }
}

/// The head of a request as it goes to a backend, with `Connection: close`.
///
/// `Host` is the request's host text where `pass_host` is set, else `authority`.
pub fn request_head(
    alloc: Global,
    request: &Request,
    authority: &[u8],
    pass_host: bool,
) -> Result<Vec<u8>, Memory>
    ensures { IfOk result (λ text. text.items ≡ request_text request.now authority.now pass_host) }
{
    let host = if pass_host {
        request.host.as_slice()
    } else {
        authority
    };
    let mut text = Vec::with_capacity(alloc, request_room(request, host))?;
    push_start(request, host, &mut text)?;
    text.extend_from_slice(request.lines.text())?;
    push_request_framing(request.framing, &mut text)?;
    text.extend_from_slice(b"Connection: close\r\n\r\n")?;
    Ok(text)
}

// How many bytes the head of a request has at most.
fn request_room(request: &Request, host: &[u8]) -> usize {
    let query = match &request.query {
        Some(query) => query.len(),
        None => 0,
    };
    FIXED_ROOM
        .saturating_add(request.method.len())
        .saturating_add(request.path.len())
        .saturating_add(query)
        .saturating_add(host.len())
        .saturating_add(request.lines.text().len())
}

// Appends the head of a reply. Where memory runs out a part may stand at the end.
#[tactic(auto, using(std::proofs::Common::append_assoc))]
fn push_reply(reply: &Reply, version: u8, close: bool, out: &mut Vec<u8>) -> Result<(), Memory>
    ensures ok { OnOk result (out.new.items ≡ out.old.items ++ reply_text reply.now version close) }
    ensures err { OnErr result (Keeps out.old.items out.new.items) }
{
    push_status_line(reply, out)?;
    out.extend_from_slice(reply.lines.text())?;
    push_reply_framing(reply.framing, version, out)?;
    out.extend_from_slice(last_lines(close))?;
    Ok(())
}

// How many bytes the head of a reply has at most.
fn reply_room(reply: &Reply) -> usize {
    FIXED_ROOM
        .saturating_add(reply.reason.len())
        .saturating_add(reply.lines.text().len())
}

// Appends the request line and the field `Host`.
#[tactic(auto, using(std::proofs::Common::append_assoc))]
fn push_start(request: &Request, host: &[u8], out: &mut Vec<u8>) -> Result<(), Memory>
    ensures { OnOk result (out.new.items ≡ out.old.items ++ request_line request.now ++ field_text (codes "Host") host.now) }
{
    out.extend_from_slice(request.method.as_slice())?;
    out.push(b' ')?;
    push_target(request.path.as_slice(), &request.query, out)?;
    out.extend_from_slice(b" HTTP/1.1\r\nHost: ")?;
    out.extend_from_slice(host)?;
    out.extend_from_slice(b"\r\n")
}

#[tactic(auto, using(std::proofs::Common::append_assoc))]
fn push_target(path: &[u8], query: &Option<Bytes>, out: &mut Vec<u8>) -> Result<(), Memory>
    ensures { OnOk result (out.new.items ≡ out.old.items ++ target_text path.now query.now) }
{
    out.extend_from_slice(path)?;
    match query {
        Some(query) => {
            out.extend_from_slice(b"?")?;
            out.extend_from_slice(query.as_slice())
        }
        None => Ok(()),
    }
}

#[tactic(auto, using(std::proofs::Common::append_assoc))]
fn push_status_line(reply: &Reply, out: &mut Vec<u8>) -> Result<(), Memory>
    ensures ok { OnOk result (out.new.items ≡ out.old.items ++ status_line reply.now) }
    ensures err { OnErr result (Keeps out.old.items out.new.items) }
{
    push_number(b"HTTP/1.1 ", reply.status as u64, out)?;
    out.extend_from_slice(b" ")?;
    out.extend_from_slice(reply.reason.as_slice())?;
    out.extend_from_slice(b"\r\n")
}

/// Appends a text and a number. Where memory runs out the text may stand at the end.
#[tactic(auto, using(std::proofs::Common::append_assoc))]
pub(crate) fn push_number(label: &[u8], n: u64, out: &mut Vec<u8>) -> Result<(), Memory>
    ensures ok { OnOk result (out.new.items ≡ out.old.items ++ label.now ++ decimal n) }
    ensures err { OnErr result (Keeps out.old.items out.new.items) }
{
    out.extend_from_slice(label)?;
    print_decimal(n, out)
}

fn push_request_framing(framing: Framing, out: &mut Vec<u8>) -> Result<(), Memory>
    ensures { OnOk result (out.new.items ≡ out.old.items ++ request_framing framing) }
{
    match framing {
        Framing::None => Ok(()),
        Framing::Length(len) => push_length(len, out),
        Framing::Chunked => push_chunked(out),
        Framing::ToEnd => push_chunked(out),
    }
}

fn push_reply_framing(framing: Framing, version: u8, out: &mut Vec<u8>) -> Result<(), Memory>
    ensures ok { OnOk result (out.new.items ≡ out.old.items ++ reply_framing framing version) }
    ensures err { OnErr result (Keeps out.old.items out.new.items) }
{
    match framing {
        Framing::None => Ok(()),
        Framing::Length(len) => push_length(len, out),
        Framing::Chunked => {
            if version == 1 {
                push_chunked(out)
            } else {
                Ok(())
            }
        }
        Framing::ToEnd => {
            if version == 1 {
                push_chunked(out)
            } else {
                Ok(())
            }
        }
    }
}

// The end of a reply's head, with `Connection: close` or without.
fn last_lines(close: bool) -> &'static [u8]
    ensures { result.now ≡ close_text close ++ crlf }
{
    if close {
        b"Connection: close\r\n\r\n"
    } else {
        b"\r\n"
    }
}

#[tactic(auto, using(std::proofs::Common::append_assoc))]
fn push_length(len: u64, out: &mut Vec<u8>) -> Result<(), Memory>
    ensures ok { OnOk result (out.new.items ≡ out.old.items ++ field_text (codes "Content-Length") (decimal len)) }
    ensures err { OnErr result (Keeps out.old.items out.new.items) }
{
    push_number(b"Content-Length: ", len, out)?;
    out.extend_from_slice(b"\r\n")
}

fn push_chunked(out: &mut Vec<u8>) -> Result<(), Memory>
    ensures ok { OnOk result (out.new.items ≡ out.old.items ++ field_text (codes "Transfer-Encoding") (codes "chunked")) }
    ensures err { OnErr result (Keeps out.old.items out.new.items) }
{
    out.extend_from_slice(b"Transfer-Encoding: chunked\r\n")
}
