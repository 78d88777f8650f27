//! The reply head at the front of a buffer (RFC 9112 sections 2 to 5).
ghost use Rattle.std.specs.Prelude.{◌↔◌, ◌<◌, List, ℕ, length};
ghost use Rattle.httparse.specs.Grammar.{NeverHasResponse, MayBecomeResponse, ResponseHead, ReadsResponse};
ghost use Rattle.head_view.specs.Lines.{line_feeds};
ghost use Rattle.head_view.specs.Replies.{IfWhole, IsWhole, OnPart, OnBad, OnTooMany, IsHeadWithin, AreHeadSpans, HasHead, FindsHead};

use httparse::spans::{HeaderSpan, Span, parse_response};
use httparse::{Error, Status};

/// Where the parts of a reply's head lie.
#[derive(Clone, Copy, Debug, PartialEq, Eq)]
pub struct ReplySpans {
    /// The minor version: 1 for `HTTP/1.1`.
    pub version: u8,
    /// The three digits of the status, as a number below 1,000.
    pub status: u16,
    /// The reason, which is empty where there is none.
    pub reason: Span,
    /// How many field lines were found.
    pub lines: usize,
    /// The length of the head in bytes, with its last empty line.
    pub len: usize,
}

/// What a scan of a buffer found at its front.
#[derive(Clone, Copy, Debug, PartialEq, Eq)]
pub enum ReplyScan {
    /// A whole head.
    Whole(ReplySpans),
    /// A part of a head: more bytes may make it whole.
    Part,
    /// No head, whatever bytes follow.
    Bad,
    /// More field lines than the room has places.
    TooMany,
}

/// Finds the reply head at the front of `buf`, and writes where its field lines lie to `room`.
pub fn scan_reply(buf: &[u8], room: &mut [HeaderSpan]) -> ReplyScan
    ensures within { IfWhole result (IsHeadWithin buf.now room.new) }
    ensures whole { IfWhole result (AreHeadSpans (length room.old) buf.now room.new) }
    ensures found { IsWhole result ↔ HasHead (length room.old) buf.now }
    // Whichever way the front is read as a head that fits, that head is the one found.
    ensures same { FindsHead (length room.old) buf.now room.new result }
    ensures bad { OnBad result (NeverHasResponse buf.now) }
    ensures too_many { OnTooMany result
        ((¬ (HasHead (length room.old) buf.now)) × (length room.old < line_feeds buf.now)) }
    ensures part { OnPart result (MayBecomeResponse buf.now) }
    ensures none_whole { OnPart result ((h : ResponseHead) (rest : List ℕ) → ¬ (ReadsResponse buf.now h rest)) }
{
    match parse_response(buf, room) {
        Ok(Status::Complete(spans)) => ReplyScan::Whole(ReplySpans {
            version: spans.version,
            status: spans.code,
            reason: spans.reason,
            lines: spans.headers,
            len: spans.len,
        }),
        Ok(Status::Partial) => ReplyScan::Part,
        Err(Error::TooManyHeaders) => ReplyScan::TooMany,
        Err(_) => ReplyScan::Bad,
    }
}
