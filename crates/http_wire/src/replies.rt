//! Replies of backends, as they are taken from the bytes of their heads.
ghost use Rattle.std.specs.Prelude.{◌≡◌, IsTrue, not, IfOk, MatchResult, length, take};
ghost use Rattle.std.specs.List.{filter};
ghost use Rattle.std.specs.Option.{option_map};
ghost use Rattle.httparse.specs.Spans.{IsHeaderWithin, IsWithin, header_bytes, span_bytes};
ghost use Rattle.head_view.specs.Lines.{AreWithin, lines_at};
ghost use Rattle.head_view.specs.Replies.{IsHeadWithin};
ghost use Rattle.http_wire.specs.Fields.{HoldOptions};
ghost use Rattle.http_wire.specs.Replies.{is_interim, is_head, has_no_body, is_kept, reply_framing_of, IsReplyOf, IsReplyFault, HasNoFault, IfRefused};

use crate::fields::{Options, is_end_to_end, is_named, options_of};
use crate::framing::{FramingFault, framing_of};
use crate::lines::{FieldLines, room_of};
use crate::message::Reply;
use body_codec::Framing;
use head_view::ReplySpans;
use httparse::spans::HeaderSpan;
use px_base::{Bytes, Memory};
use std::alloc::Global;

/// What is wrong with a backend's reply.
#[derive(Clone, Copy, Debug, PartialEq, Eq)]
pub enum ReplyFault {
    /// The bytes are no head: a scan's answer, which no head that was found has.
    BadHead,
    /// A `Content-Length` that isn't 1 to 19 digits of a value below 2^40, two that differ, or a
    /// last coding that isn't `chunked`.
    BadLength,
    /// `Transfer-Encoding` beside `Content-Length`, or in version 1.0.
    BothLengths,
    /// A coding beside `chunked`.
    BadCoding,
    /// A switch of protocols: status 101.
    Switch,
}

/// Why a reply isn't taken.
#[derive(Clone, Copy, Debug, PartialEq, Eq)]
pub enum ReplyRefused {
    Reply(ReplyFault),
    Memory,
}

/// Takes the reply to a request of this method from the head that a scan of `buf` found, with the
/// room that it filled.
///
/// The lines that speak of the backend's connection alone are left out. The head of an interim
/// reply (`is_interim_status`) is the caller's to drop. A fault comes exactly where its condition is
/// the first in order, with memory or without.
pub fn take_reply(
    alloc: Global,
    buf: &[u8],
    room: &[HeaderSpan],
    spans: &ReplySpans,
    method: &[u8],
) -> Result<Reply, ReplyRefused>
    requires within { IsHeadWithin buf.now room.now spans.now }
    requires answer { IsTrue (not (is_interim spans.now.status)) }
    ensures { let fields = lines_at buf.now (take spans.now.lines room.now) in MatchResult result
        (λ reply. HasNoFault spans.now.version spans.now.status fields
        × IsReplyOf method.now spans.now.status (span_bytes buf.now spans.now.reason) fields reply)
        (IfRefused (IsReplyFault spans.now.version spans.now.status fields) (HasNoFault spans.now.version spans.now.status fields)) }
{
    let lines = &room[..spans.lines];
    match reply_framing(buf, lines, spans, method) {
        Ok(framing) => match reply_with(alloc, buf, lines, spans, method, framing) {
            Ok(reply) => Ok(reply),
            Err(_) => Err(ReplyRefused::Memory),
        },
        Err(fault) => Err(ReplyRefused::Reply(fault)),
    }
}

/// Whether the status is that of an interim reply, which is dropped: 1xx, but for 101 (RFC 9110
/// section 15.2).
pub fn is_interim_status(status: u16) -> bool
    ensures { result ≡ is_interim status }
{
    status >= 100 && status <= 199 && status != 101
}

// The framing of a reply.
fn reply_framing(
    buf: &[u8],
    lines: &[HeaderSpan],
    spans: &ReplySpans,
    method: &[u8],
) -> Result<Framing, ReplyFault>
    requires { AreWithin buf.now lines.now }
    ensures { let fields = lines_at buf.now lines.now in MatchResult result
        (λ f. HasNoFault spans.now.version spans.now.status fields
        × (f ≡ reply_framing_of method.now spans.now.status fields))
        (IsReplyFault spans.now.version spans.now.status fields) }
{
    if spans.status == 101 {
        return Err(ReplyFault::Switch);
    }
    match framing_of(buf, lines, spans.version, Framing::ToEnd) {
        Ok(_) if lacks_body(method, spans.status) => Ok(Framing::None),
        Ok(framing) => Ok(framing),
        Err(FramingFault::BadLength) => Err(ReplyFault::BadLength),
        Err(FramingFault::BothLengths) => Err(ReplyFault::BothLengths),
        Err(FramingFault::BadCoding) => Err(ReplyFault::BadCoding),
    }
}

fn lacks_body(method: &[u8], status: u16) -> bool
    ensures { result ≡ has_no_body method.now status }
{
    is_head_method(method) || status == 204 || status == 304
}

fn is_head_method(method: &[u8]) -> bool
    ensures { result ≡ is_head method.now }
{
    method == b"HEAD".as_slice()
}

// The reply with this framing.
fn reply_with(
    alloc: Global,
    buf: &[u8],
    lines: &[HeaderSpan],
    spans: &ReplySpans,
    method: &[u8],
    framing: Framing,
) -> Result<Reply, Memory>
    requires lines { AreWithin buf.now lines.now }
    requires reason { IsWithin (length buf.now) spans.now.reason }
    requires framing { framing ≡ reply_framing_of method.now spans.now.status (lines_at buf.now lines.now) }
    ensures { IfOk result (IsReplyOf method.now spans.now.status (span_bytes buf.now spans.now.reason) (lines_at buf.now lines.now)) }
{
    let tells = is_head_method(method) || spans.status == 304;
    let lines = kept_lines(alloc, buf, lines, tells)?;
    let reason = Bytes::from_slice(alloc, spans.reason.of(buf))?;
    Ok(Reply {
        status: spans.status,
        reason,
        lines,
        framing,
    })
}

// The lines that go on to the client, in order.
fn kept_lines(
    alloc: Global,
    buf: &[u8],
    lines: &[HeaderSpan],
    tells: bool,
) -> Result<FieldLines, Memory>
    requires { AreWithin buf.now lines.now }
    ensures { IfOk result (λ kept. kept ≡ filter (is_kept tells (lines_at buf.now lines.now)) (lines_at buf.now lines.now)) }
{
    kept_among(alloc, buf, lines, &options_of(buf, lines), tells)
}

// Those of `lines`, which have these options, that go on.
fn kept_among(
    alloc: Global,
    buf: &[u8],
    lines: &[HeaderSpan],
    options: &Options<'_>,
    tells: bool,
) -> Result<FieldLines, Memory>
    requires lines { AreWithin buf.now lines.now }
    requires options { HoldOptions buf.now options.now.lines.now (option_map (λ o. o.now) options.now.only) lines.now }
    ensures { IfOk result (λ kept. kept ≡ filter (is_kept tells (lines_at buf.now lines.now)) (lines_at buf.now lines.now)) }
{
    let mut kept = FieldLines::with_capacity(alloc, lines.len(), room_of(lines))?;
    for line in lines {
        if is_kept_line(buf, lines, options, line, tells) {
            kept.push_line(buf, line)?;
        }
    }
    Ok(kept)
}

// Whether the line goes on to the client, among `lines` with these options.
fn is_kept_line(
    buf: &[u8],
    lines: &[HeaderSpan],
    options: &Options<'_>,
    line: &HeaderSpan,
    tells: bool,
) -> bool
    requires options { HoldOptions buf.now options.now.lines.now (option_map (λ o. o.now) options.now.only) lines.now }
    requires one { IsHeaderWithin (length buf.now) line.now }
    ensures { result ≡ is_kept tells (lines_at buf.now lines.now) (header_bytes buf.now line.now) }
{
    is_end_to_end(buf, lines, options, line) && (tells || !is_named(buf, line, b"Content-Length"))
}
