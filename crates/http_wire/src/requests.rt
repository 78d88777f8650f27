//! Requests of clients, as they are taken from the bytes of their heads.
ghost use Rattle.std.specs.Prelude.{◌≡◌, ◌++◌, ℕ, List as ListOf, IfOk, OnOk, MatchResult, length, take};
ghost use Rattle.std.specs.List.{filter};
ghost use Rattle.std.specs.Option.{option_map};
ghost use Rattle.httparse.specs.Spans.{IsHeaderWithin, header_bytes, span_bytes};
ghost use Rattle.std.specs.Net.Text.{dotted_text};
ghost use Rattle.ip_net.specs.Texts.{ip_print};
ghost use Rattle.path_norm.specs.Normal.{Normalises};
ghost use Rattle.head_view.specs.Lines.{AreWithin, lines_at};
ghost use Rattle.head_view.specs.Scans.{IsHeadWithin};
ghost use Rattle.http_wire.specs.Fields.{HoldOptions};
ghost use Rattle.http_wire.specs.Framing.{encodings_of, lengths_of, framing_by};
ghost use Rattle.http_wire.specs.Targets.{path_of, query_of};
ghost use Rattle.http_wire.specs.Requests.{hosts_of, first_or_empty, host_in, IsHosted, is_forwarded, is_replaced, goes_to_backend, told_fields, lines_for_backend, keeps, IsRequestOf, IsSound, IsHeadFault, TakesRequest};

use crate::fields::{
    Options, begins_with, first_named, has_none, is_end_to_end, is_named, is_option, options_of,
};
use crate::framing::{FramingFault, framing_of};
use crate::lines::{FieldLines, room_of};
use crate::message::Request;
use crate::spell::push_number;
use crate::targets::{host_text, is_refused_target, path_and_query_in, port_in};
use body_codec::Framing;
use head_view::HeadSpans;
use httparse::spans::HeaderSpan;
use ip_net::{Ip, print_ip};
use path_norm::{PathFault, normalise};
use px_base::{Bytes, Memory, print_decimal};
use std::alloc::Global;

/// As many lines say what the proxy knows of the client.
const TOLD_LINES: usize = 5;

/// As many bytes as those lines have at most, beside a host text.
const TOLD_ROOM: usize = 192;

/// What is wrong with the head of a request.
#[derive(Clone, Copy, Debug, PartialEq, Eq)]
pub enum HeadFault {
    /// The bytes are no head: a scan's answer, which no head that was found has.
    BadHead,
    /// Version 1.1 without `Host`.
    NoHost,
    /// More than one `Host`.
    TwoHosts,
    /// A `Content-Length` that isn't 1 to 19 digits of a value below 2^40, two that differ, or a
    /// last coding that isn't `chunked`.
    BadLength,
    /// `Transfer-Encoding` beside `Content-Length`, or in version 1.0.
    BothLengths,
    /// A coding beside `chunked`.
    BadCoding,
    /// A target that neither begins with a slash nor is absolute, a byte in it or in the host text
    /// that isn't visible or is a `#`, or the method CONNECT.
    BadTarget,
    /// A `%` in the path without two hexadecimal digits after it.
    BadEscape,
}

/// Why a request isn't taken.
#[derive(Clone, Copy, Debug, PartialEq, Eq)]
pub enum RequestRefused {
    Head(HeadFault),
    Memory,
}

/// Takes the request of the client with this address from the head that a scan of `buf` found, with
/// the room that it filled.
///
/// The lines that speak of the client's connection alone are left out, and what the client says of
/// forwarding is replaced by what the proxy knows. A fault comes exactly where its condition is the
/// first in order; only `BadEscape` is looked for with memory.
pub fn take_request(
    alloc: Global,
    buf: &[u8],
    room: &[HeaderSpan],
    spans: &HeadSpans,
    peer: Ip,
) -> Result<Request, RequestRefused>
    requires { IsHeadWithin buf.now room.now spans.now }
    ensures { TakesRequest (span_bytes buf.now spans.now.method) (span_bytes buf.now spans.now.target) spans.now.version
        (lines_at buf.now (take spans.now.lines room.now)) peer result }
{
    let lines = &room[..spans.lines];
    taken(
        alloc,
        buf,
        lines,
        spans.version,
        spans.method.of(buf),
        spans.target.of(buf),
        peer,
    )
}

fn taken(
    alloc: Global,
    buf: &[u8],
    lines: &[HeaderSpan],
    version: u8,
    method: &[u8],
    target: &[u8],
    peer: Ip,
) -> Result<Request, RequestRefused>
    requires { AreWithin buf.now lines.now }
    ensures { TakesRequest method.now target.now version (lines_at buf.now lines.now) peer result }
{
    match read_head(buf, lines, version, method, target) {
        Ok(head) => request_of(alloc, buf, lines, version, method, target, &head, peer),
        Err(fault) => Err(RequestRefused::Head(fault)),
    }
}

// What the fields and the target say, before a path is normalised.
#[derive(Clone, Copy)]
struct CheckedHead<'a> {
    host: &'a [u8],
    path: &'a [u8],
    query: Option<&'a [u8]>,
    options: Options<'a>,
    framing: Framing,
}

// What a head says that has no fault but perhaps a bad escape.
fn read_head<'a>(
    buf: &'a [u8],
    lines: &'a [HeaderSpan],
    version: u8,
    method: &[u8],
    target: &'a [u8],
) -> Result<CheckedHead<'a>, HeadFault>
    requires { AreWithin buf.now lines.now }
    ensures { let fields = lines_at buf.now lines.now in MatchResult result
        (λ s. IsSound method.now target.now version fields × (s.host.now ≡ host_in target.now fields)
        × (s.path.now ≡ path_of target.now) × (option_map (λ q. q.now) s.query ≡ query_of target.now)
        × HoldOptions buf.now s.options.lines.now (option_map (λ o. o.now) s.options.only) lines.now
        × (s.framing ≡ framing_by (encodings_of fields) (lengths_of fields) Framing.None))
        (IsHeadFault method.now target.now version fields) }
{
    let value = match host_value(buf, lines, version) {
        Ok(value) => value,
        Err(fault) => return Err(fault),
    };
    let host = host_text(target, value);
    match framing_of(buf, lines, version, Framing::None) {
        Ok(_) if is_refused_target(method, target, host) => Err(HeadFault::BadTarget),
        Ok(framing) => {
            let (path, query) = path_and_query_in(target);
            Ok(CheckedHead {
                host,
                path,
                query,
                options: options_of(buf, lines),
                framing,
            })
        }
        Err(FramingFault::BadLength) => Err(HeadFault::BadLength),
        Err(FramingFault::BothLengths) => Err(HeadFault::BothLengths),
        Err(FramingFault::BadCoding) => Err(HeadFault::BadCoding),
    }
}

// The value of the one `Host`, or nothing in version 1.0.
fn host_value<'a>(buf: &'a [u8], lines: &[HeaderSpan], version: u8) -> Result<&'a [u8], HeadFault>
    requires { AreWithin buf.now lines.now }
    ensures { let fields = lines_at buf.now lines.now in MatchResult result
        (λ host. IsHosted version fields × (host.now ≡ first_or_empty (hosts_of fields)))
        (λ fault. (method target : ListOf ℕ) → IsHeadFault method target version fields fault) }
{
    let Some((value, rest)) = first_named(buf, lines, b"Host") else {
        return if version == 1 {
            Err(HeadFault::NoHost)
        } else {
            Ok(b"")
        };
    };
    if has_none(buf, rest, b"Host") {
        Ok(value)
    } else {
        Err(HeadFault::TwoHosts)
    }
}

// The request of a sound head, unless an escape of its path is bad.
fn request_of(
    alloc: Global,
    buf: &[u8],
    lines: &[HeaderSpan],
    version: u8,
    method: &[u8],
    target: &[u8],
    head: &CheckedHead<'_>,
    peer: Ip,
) -> Result<Request, RequestRefused>
    requires lines { AreWithin buf.now lines.now }
    requires sound { IsSound method.now target.now version (lines_at buf.now lines.now) }
    requires host { head.now.host.now ≡ host_in target.now (lines_at buf.now lines.now) }
    requires path { head.now.path.now ≡ path_of target.now }
    requires query { option_map (λ q. q.now) head.now.query ≡ query_of target.now }
    requires options { HoldOptions buf.now head.now.options.lines.now (option_map (λ o. o.now) head.now.options.only) lines.now }
    requires framing { head.now.framing ≡ framing_by (encodings_of (lines_at buf.now lines.now)) (lengths_of (lines_at buf.now lines.now)) Framing.None }
    ensures { TakesRequest method.now target.now version (lines_at buf.now lines.now) peer result }
{
    let mut path = Vec::new(alloc);
    if path.reserve(head.path.len()).is_err() {
        return Err(RequestRefused::Memory);
    }
    match normalise(head.path, &mut path) {
        Ok(()) => match request_with(alloc, buf, lines, version, method, target, head, peer, path) {
            Ok(request) => Ok(request),
            Err(_) => Err(RequestRefused::Memory),
        },
        Err(PathFault::BadEscape { at: _ }) => Err(RequestRefused::Head(HeadFault::BadEscape)),
        Err(PathFault::Memory) => Err(RequestRefused::Memory),
    }
}

// The request with this path.
fn request_with(
    alloc: Global,
    buf: &[u8],
    lines: &[HeaderSpan],
    version: u8,
    method: &[u8],
    target: &[u8],
    head: &CheckedHead<'_>,
    peer: Ip,
    path: Vec<u8>,
) -> Result<Request, Memory>
    requires lines { AreWithin buf.now lines.now }
    requires host { head.now.host.now ≡ host_in target.now (lines_at buf.now lines.now) }
    requires query { option_map (λ q. q.now) head.now.query ≡ query_of target.now }
    requires options { HoldOptions buf.now head.now.options.lines.now (option_map (λ o. o.now) head.now.options.only) lines.now }
    requires framing { head.now.framing ≡ framing_by (encodings_of (lines_at buf.now lines.now)) (lengths_of (lines_at buf.now lines.now)) Framing.None }
    requires path { Normalises (path_of target.now) path.items }
    ensures { IfOk result (IsRequestOf method.now target.now version (lines_at buf.now lines.now) peer) }
{
    let lines_on = backend_lines(alloc, buf, lines, head, peer)?;
    let keep = may_go_on(buf, lines, version, head);
    made_of(
        alloc,
        method,
        head.host,
        path,
        head.query,
        lines_on,
        head.framing,
        version,
        keep,
    )
}

// A request of these parts.
fn made_of(
    alloc: Global,
    method: &[u8],
    host: &[u8],
    path: Vec<u8>,
    query: Option<&[u8]>,
    lines: FieldLines,
    framing: Framing,
    version: u8,
    keep: bool,
) -> Result<Request, Memory>
    ensures texts { IfOk result (λ r. (r.method ≡ method.now) × (r.host ≡ host.now) × (r.path ≡ path.items)
        × (r.query ≡ option_map (λ q. q.now) query.entry) × (r.lines ≡ lines)) }
    ensures rest { IfOk result (λ r. (r.framing ≡ framing) × (r.version ≡ version) × (r.keep ≡ keep)) }
{
    Ok(Request {
        method: Bytes::from_slice(alloc, method)?,
        host: Bytes::from_slice(alloc, host)?,
        path: Bytes::from_vec(path),
        query: copied(alloc, query)?,
        lines,
        framing,
        version,
        keep,
    })
}

// Whether the client's connection may go on.
fn may_go_on(buf: &[u8], lines: &[HeaderSpan], version: u8, head: &CheckedHead<'_>) -> bool
    requires { HoldOptions buf.now head.now.options.lines.now (option_map (λ o. o.now) head.now.options.only) lines.now }
    ensures { result ≡ keeps version (lines_at buf.now lines.now) }
{
    version == 1 && !is_option(buf, lines, &head.options, b"close")
}

fn copied(alloc: Global, text: Option<&[u8]>) -> Result<Option<Bytes>, Memory>
    ensures { IfOk result (λ copy. copy ≡ option_map (λ t. t.now) text.entry) }
{
    match text {
        Some(text) => Ok(Some(Bytes::from_slice(alloc, text)?)),
        None => Ok(None),
    }
}

// The lines for the backend: the client's that go on, and then what the proxy says of the client.
fn backend_lines(
    alloc: Global,
    buf: &[u8],
    lines: &[HeaderSpan],
    head: &CheckedHead<'_>,
    peer: Ip,
) -> Result<FieldLines, Memory>
    requires lines { AreWithin buf.now lines.now }
    requires options { HoldOptions buf.now head.now.options.lines.now (option_map (λ o. o.now) head.now.options.only) lines.now }
    ensures { IfOk result (λ all. all ≡ lines_for_backend peer head.now.host.now (lines_at buf.now lines.now)) }
{
    let mut all = client_lines(alloc, buf, lines, &head.options)?;
    let mut address = Vec::with_capacity(alloc, 16)?;
    push_address(alloc, peer, &mut address)?;
    push_forwarding_fields(&mut all, address.as_slice(), head.host)?;
    Ok(all)
}

fn push_address(alloc: Global, peer: Ip, out: &mut Vec<u8>) -> Result<(), Memory>
    ensures { OnOk result (out.new.items ≡ out.old.items ++ ip_print peer) }
{
    match peer {
        Ip::V4(bits) => {
            let octets = bits.to_be_bytes();
            push_dotted(octets[0], octets[1], octets[2], octets[3], out)
        }
        Ip::V6(_) => print_ip(alloc, peer, out),
    }
}

#[tactic(auto, using(std::proofs::Common::append_assoc))]
fn push_dotted(a: u8, b: u8, c: u8, d: u8, out: &mut Vec<u8>) -> Result<(), Memory>
    ensures { OnOk result (out.new.items ≡ out.old.items ++ dotted_text a b c d) }
{
    print_decimal(a as u64, out)?;
    push_number(b".", b as u64, out)?;
    push_number(b".", c as u64, out)?;
    push_number(b".", d as u64, out)
}

// The client's lines that go on, with room for what is told of the client.
fn client_lines(
    alloc: Global,
    buf: &[u8],
    lines: &[HeaderSpan],
    options: &Options<'_>,
) -> Result<FieldLines, Memory>
    requires lines { AreWithin buf.now lines.now }
    requires options { HoldOptions buf.now options.now.lines.now (option_map (λ o. o.now) options.now.only) lines.now }
    ensures { IfOk result (λ kept. kept ≡ filter (goes_to_backend (lines_at buf.now lines.now)) (lines_at buf.now lines.now)) }
{
    let room = room_of(lines).saturating_add(TOLD_ROOM);
    let mut kept = FieldLines::with_capacity(alloc, lines.len() + TOLD_LINES, room)?;
    for line in lines {
        if does_go_to_backend(buf, lines, options, line) {
            kept.push_line(buf, line)?;
        }
    }
    Ok(kept)
}

// Whether the line goes to the backend, among `lines` with these options.
fn does_go_to_backend(
    buf: &[u8],
    lines: &[HeaderSpan],
    options: &Options<'_>,
    line: &HeaderSpan,
) -> bool
    requires options { HoldOptions buf.now options.now.lines.now (option_map (λ o. o.now) options.now.only) lines.now }
    requires one { IsHeaderWithin (length buf.now) line.now }
    ensures { result ≡ goes_to_backend (lines_at buf.now lines.now) (header_bytes buf.now line.now) }
{
    !is_replaced_line(buf, line) && is_end_to_end(buf, lines, options, line)
}

fn is_replaced_line(buf: &[u8], line: &HeaderSpan) -> bool
    requires { IsHeaderWithin (length buf.now) line.now }
    ensures { result ≡ is_replaced (header_bytes buf.now line.now) }
{
    is_named(buf, line, b"Host")
        || is_named(buf, line, b"Content-Length")
        || is_named(buf, line, b"Expect")
        || is_named(buf, line, b"X-Real-Ip")
        || is_of_forwarding(line.name.of(buf))
}

fn is_of_forwarding(name: &[u8]) -> bool
    ensures { result ≡ is_forwarded name.now }
{
    begins_with(name, b"X-Forwarded-")
}

// Adds what the proxy says of a client with this address.
#[tactic(auto, using(std::proofs::Common::append_assoc))]
fn push_forwarding_fields(lines: &mut FieldLines, address: &[u8], host: &[u8]) -> Result<(), Memory>
    ensures { OnOk result (lines.new ≡ lines.old ++ told_fields address.now host.now) }
{
    lines.push(b"X-Forwarded-For", address)?;
    lines.push(b"X-Forwarded-Host", host)?;
    lines.push(b"X-Forwarded-Port", port_in(host))?;
    lines.push_whole(
        b"X-Forwarded-Proto: http\r\n",
        b"X-Forwarded-Proto",
        b"http",
    )?;
    lines.push(b"X-Real-Ip", address)?;
    Ok(())
}
