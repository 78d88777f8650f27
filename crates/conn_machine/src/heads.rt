//! Requests, as they are found at the front of a client's bytes.
ghost use Rattle.std.specs.Prelude.{◌≡◌, ◌≤◌, ◌⊎◌, IfOk, IsTrue, ◌↔◌, length};
ghost use Rattle.head_view.specs.Scans.{IsHeadWithin, AreHeadSpans};
ghost use Rattle.conversation.specs.Asks.{IsServed, name_of};
ghost use Rattle.conn_machine.specs.Parts.{IsFound};

use crate::boxed::BoxedRequest;
use crate::parts::Asked;
use body_codec::Framing;
use head_view::{EMPTY_HEADER_SPAN, HeadSpans, HeaderSpan, Scan, scan_request};
use http_wire::{HeadFault, Request, RequestRefused, take_request};
use ip_net::Ip;
use link_world::{Cause, HeadName};
use px_base::Memory;
use std::alloc::{AllocError, Global};

/// The most bytes of a head.
pub const HEAD_LIMIT: usize = 16384;

/// The most field lines of a usual head, which is found without room for all that a head may have.
pub(crate) const USUAL_LINES: usize = 32;

/// What stands at the front of a client's bytes.
#[derive(Drop)]
pub enum Found {
    /// A part of a head.
    Part,
    /// A request, or one that is refused, and how many bytes it has.
    Head(Asked, usize),
}

/// Looks for the head of a request at the front of at most 16,384 bytes.
pub fn read_head(alloc: Global, buf: &[u8], peer: Ip) -> Result<Found, Memory>
    requires { length buf.now ≤ 16384 }
    ensures { IfOk result (IsFound peer buf.now) }
{
    if buf.is_empty() {
        return Ok(Found::Part);
    }
    let mut room = [EMPTY_HEADER_SPAN; USUAL_LINES];
    match scan_request(buf, &mut room) {
        Scan::Whole(spans) => take_head(alloc, buf, &room, &spans, peer),
        _ => read_any_head(alloc, buf, peer),
    }
}

// Looks for it with room for as many lines as a head may have.
fn read_any_head(alloc: Global, buf: &[u8], peer: Ip) -> Result<Found, Memory>
    requires { length buf.now ≤ 16384 }
    ensures { IfOk result (IsFound peer buf.now) }
{
    let mut room = [EMPTY_HEADER_SPAN; 100];
    match scan_request(buf, &mut room) {
        Scan::Whole(spans) => take_head(alloc, buf, &room, &spans, peer),
        Scan::Part => {
            if buf.len() < HEAD_LIMIT {
                Ok(Found::Part)
            } else {
                Ok(Found::Head(Asked::Refused(Cause::HeadTooLarge), buf.len()))
            }
        }
        Scan::TooMany => Ok(Found::Head(Asked::Refused(Cause::HeadTooLarge), buf.len())),
        Scan::Bad => Ok(Found::Head(refused(HeadFault::BadHead), buf.len())),
    }
}

// The request of the head that a scan found, or its fault.
fn take_head(
    alloc: Global,
    buf: &[u8],
    room: &[HeaderSpan],
    spans: &HeadSpans,
    peer: Ip,
) -> Result<Found, Memory>
    requires short { length buf.now ≤ 16384 }
    requires within { IsHeadWithin buf.now room.now spans.now }
    requires head { AreHeadSpans 100 buf.now room.now spans.now }
    ensures { IfOk result (IsFound peer buf.now) }
{
    match take_request(alloc, buf, room, spans, peer) {
        Ok(request) => Ok(Found::Head(served(alloc, request)?, spans.len)),
        Err(RequestRefused::Head(fault)) => Ok(Found::Head(refused(fault), spans.len)),
        Err(RequestRefused::Memory) => Err(AllocError),
    }
}

// A request of a kind that isn't served yet is refused.
fn served(alloc: Global, request: Request) -> Result<Asked, Memory>
    ensures { IfOk result (λ asked. (IsServed request × (asked ≡ Asked.Request request))
        ⊎ ((¬ (IsServed request)) × (asked ≡ Asked.Refused (Cause.Head HeadName.BadCoding)))) }
{
    if is_served(&request) {
        Ok(Asked::Request(BoxedRequest::new(alloc, request)?))
    } else {
        Ok(Asked::Refused(Cause::Head(HeadName::BadCoding)))
    }
}

fn is_served(request: &Request) -> bool
    ensures { IsTrue result ↔ IsServed request.now }
{
    matches!(request.framing, Framing::None) && request.method.as_slice() != b"HEAD".as_slice()
}

fn refused(fault: HeadFault) -> Asked
    ensures { result ≡ Asked.Refused (Cause.Head (name_of fault)) }
{
    Asked::Refused(Cause::Head(fault_name(fault)))
}

fn fault_name(fault: HeadFault) -> HeadName
    ensures { result ≡ name_of fault }
{
    match fault {
        HeadFault::BadHead => HeadName::BadHead,
        HeadFault::NoHost => HeadName::NoHost,
        HeadFault::TwoHosts => HeadName::TwoHosts,
        HeadFault::BadLength => HeadName::BadLength,
        HeadFault::BothLengths => HeadName::BothLengths,
        HeadFault::BadCoding => HeadName::BadCoding,
        HeadFault::BadTarget => HeadName::BadTarget,
        HeadFault::BadEscape => HeadName::BadEscape,
    }
}
