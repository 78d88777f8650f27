//! Finds the head of a reply at the front of a link's bytes.
ghost use Rattle.std.specs.Prelude.{◌≡◌, ◌≤◌, ◌↔◌, ◌-◌, [], length, take, IfOk, IsTrue};
ghost use Rattle.httparse.specs.Grammar.{ResponseHead};
ghost use Rattle.httparse.specs.Spans.{IsResponseWithin, IsResponseAt};
ghost use Rattle.head_view.specs.Replies.{IsHeadWithin, AreHeadSpans};
ghost use Rattle.back_machine.specs.Replies.{head_limit, line_limit, IsTakenFraming, content_length};
ghost use Rattle.back_machine.specs.Readings.{Finds, KeepsPart, window};

use body_codec::Framing;
use head_view::{EMPTY_HEADER_SPAN, HeaderSpan, ReplySpans};
use http_wire::{Reply, ReplyRefused, take_reply};
use httparse::Status;
use httparse::spans::{ResponseSpans, parse_response};
use px_base::Memory;
use std::alloc::{AllocError, Global};

/// The most bytes of a head.
const HEAD_LIMIT: usize = 16384;

/// The most field lines of a head.
const LINE_LIMIT: usize = 100;

/// The most field lines of a usual head, which is found without room for all that a head may have.
const USUAL_LINES: usize = 32;

/// The most bytes of content.
const CONTENT_LIMIT: u64 = 1048576;

/// What stands at the front of a link's bytes.
#[derive(Drop)]
pub(crate) enum Found {
    /// A head that is taken, which ends at this place.
    Head { reply: Reply, end: usize },
    /// A head that isn't whole.
    Part,
    /// Nothing that is taken, whatever follows.
    Bad,
}

// Reads on: `head` is what came before of a head that isn't whole, and is kept so. Bytes that stand in one piece with
// their head aren't copied.
pub(crate) fn read_on(
    alloc: Global,
    head: &mut Vec<u8>,
    piece: &[u8],
    method: &[u8],
) -> Result<Found, Memory>
    ensures found { IfOk result (Finds method.now (window head.old.items piece.now)) }
    ensures kept { IfOk result (KeepsPart (window head.old.items piece.now) head.new.items) }
{
    let front = front_of(piece, head.as_slice().len());
    if head.as_slice().is_empty() {
        return read_first(alloc, head, front, method);
    }
    head.extend_from_slice(front)?;
    find(alloc, head.as_slice(), method)
}

// What a head has room for, of which so many bytes came before.
fn front_of(piece: &[u8], had: usize) -> &[u8]
    ensures { result.now ≡ take (head_limit - had) piece.now }
{
    let room = HEAD_LIMIT.saturating_sub(had);
    &piece[..room.min(piece.len())]
}

// Reads the first bytes.
fn read_first(
    alloc: Global,
    head: &mut Vec<u8>,
    front: &[u8],
    method: &[u8],
) -> Result<Found, Memory>
    requires { head.old.items ≡ [] }
    ensures found { IfOk result (Finds method.now front.now) }
    ensures kept { IfOk result (KeepsPart front.now head.new.items) }
{
    match find(alloc, front, method)? {
        Found::Head { reply, end } => Ok(Found::Head { reply, end }),
        Found::Part => {
            head.extend_from_slice(front)?;
            Ok(Found::Part)
        }
        Found::Bad => Ok(Found::Bad),
    }
}

// What stands at the front of the bytes. It asks the parser itself: `scan_reply` doesn't say of too many lines that no
// head with fewer can follow.
fn find(alloc: Global, gave: &[u8], method: &[u8]) -> Result<Found, Memory>
    ensures { IfOk result (Finds method.now gave.now) }
{
    let mut room = [EMPTY_HEADER_SPAN; USUAL_LINES];
    match parse_response(gave, &mut room) {
        Ok(Status::Complete(found)) => take_found(alloc, gave, &room, &found, method),
        Ok(Status::Partial) if gave.len() < HEAD_LIMIT => Ok(Found::Part),
        Ok(Status::Partial) => Ok(Found::Bad),
        Err(_) => find_any(alloc, gave, method),
    }
}

// What stands there, with room for as many lines as a head may have.
fn find_any(alloc: Global, gave: &[u8], method: &[u8]) -> Result<Found, Memory>
    ensures { IfOk result (Finds method.now gave.now) }
{
    let mut room = [EMPTY_HEADER_SPAN; LINE_LIMIT];
    match parse_response(gave, &mut room) {
        Ok(Status::Complete(found)) => take_found(alloc, gave, &room, &found, method),
        Ok(Status::Partial) if gave.len() < HEAD_LIMIT => Ok(Found::Part),
        Ok(Status::Partial) => Ok(Found::Bad),
        Err(_) => Ok(Found::Bad),
    }
}

// The head that the parser found, if it is taken.
fn take_found(
    alloc: Global,
    gave: &[u8],
    room: &[HeaderSpan],
    found: &ResponseSpans,
    method: &[u8],
) -> Result<Found, Memory>
    requires within { IsResponseWithin gave.now room.now found.now }
    requires head { (h : ResponseHead) × IsResponseAt gave.now room.now found.now h × (length h.fields ≤ line_limit) }
    ensures { IfOk result (Finds method.now gave.now) }
{
    let spans = ReplySpans {
        version: found.version,
        status: found.code,
        reason: found.reason,
        lines: found.headers,
        len: found.len,
    };
    take_head(alloc, gave, room, &spans, method)
}

// The head that a scan found, if it is taken.
fn take_head(
    alloc: Global,
    gave: &[u8],
    room: &[HeaderSpan],
    spans: &ReplySpans,
    method: &[u8],
) -> Result<Found, Memory>
    requires within { IsHeadWithin gave.now room.now spans.now }
    requires head { AreHeadSpans line_limit gave.now room.now spans.now }
    ensures { IfOk result (Finds method.now gave.now) }
{
    if spans.len > HEAD_LIMIT {
        return Ok(Found::Bad);
    }
    if spans.status < 200 || spans.status > 599 {
        return Ok(Found::Bad);
    }
    match take_reply(alloc, gave, room, spans, method) {
        Ok(reply) => {
            if is_taken(reply.framing) {
                Ok(Found::Head {
                    reply,
                    end: spans.len,
                })
            } else {
                Ok(Found::Bad)
            }
        }
        Err(ReplyRefused::Reply(fault)) => Ok(Found::Bad),
        Err(ReplyRefused::Memory) => Err(AllocError),
    }
}

fn is_taken(framing: Framing) -> bool
    ensures { IsTrue result ↔ IsTakenFraming framing }
{
    match framing {
        Framing::None => true,
        Framing::Length(len) => len <= CONTENT_LIMIT,
        Framing::Chunked => false,
        Framing::ToEnd => false,
    }
}

// How many bytes of content there are.
pub(crate) fn length_of(framing: Framing) -> usize
    ensures { result ≡ content_length framing }
{
    match framing {
        Framing::None => 0,
        Framing::Length(len) => len as usize,
        Framing::Chunked => 0,
        Framing::ToEnd => 0,
    }
}
