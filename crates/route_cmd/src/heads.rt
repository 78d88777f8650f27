//! The answer to one request head.
ghost use Rattle.std.specs.Prelude.{◌≡◌, ◌≢◌, ◌↔◌, ℕ, List, [], IsTrue, IfOk, MatchBool, codes, drop, take};
ghost use Rattle.httparse.specs.Grammar.{RequestHead};
ghost use Rattle.httparse.specs.Spans.{span_bytes};
ghost use Rattle.head_view.specs.Lines.{lines_at, values_of};
ghost use Rattle.head_view.specs.Scans.{IsHeadWithin, IsHeadAt};
ghost use Rattle.head_view.specs.Views.{view_lines};
ghost use Rattle.http_wire.specs.Requests.{IsSound, IsRequestOf};
ghost use Rattle.http_wire.specs.Targets.{path_of};
ghost use Rattle.path_norm.specs.Escapes.{HasWholeEscapes};
ghost use Rattle.rule_eval.specs.Truth.{asked_of};
ghost use Rattle.runtime_config.specs.Runtime.{IsRuntime};
ghost use Rattle.route_cmd.specs.Services.{HaveOneServer};
ghost use Rattle.route_cmd.specs.Requests.{HasFault, IsFaultless, query_bytes, head_fault_name, request_text};
ghost use Rattle.route_cmd.specs.Output.{HeadAnswer, line};
ghost use Rattle.route_cmd.specs.Parts.{IsLaterBy, asked_from};

use crate::lines::route_line;
use body_codec::Framing;
use head_view::{HeadSpans, HeaderSpan, RequestView, view};
use http_wire::{HeadFault, Request, RequestRefused, host_of_rules, take_request};
use ip_net::Ip;
use px_base::{Answer, Bytes, Memory, make_answer};
use runtime_config::RuntimeConfig;
use std::alloc::{AllocError, Global};

// The answer to the head that a scan of the input found.
pub(crate) fn answer_head(
    alloc: Global,
    config: &RuntimeConfig,
    entry: &[u8],
    peer: Ip,
    input: &[u8],
    room: &[HeaderSpan],
    spans: &HeadSpans,
) -> Result<Answer, Memory>
    requires runtime { IsRuntime config.now.merged config.now }
    requires form { HaveOneServer config.now.merged }
    requires within { IsHeadWithin input.now room.now spans.now }
    ensures told { IfOk result (λ a. (h : RequestHead) → IsHeadAt input.now room.now spans.now h
        → HeadAnswer config.now.merged config.now.table.rows entry.now peer h (drop spans.now.len input.now) a.status a.text.items) }
    ensures apart { IfOk result (λ a. (a.status ≢ 5) × (a.status ≢ 6)) }
{
    match take_request(alloc, input, room, spans, peer) {
        Ok(request) => answer_request(alloc, config, entry, peer, input, room, spans, request),
        Err(RequestRefused::Head(fault)) => make_answer(alloc, 4, fault_line(fault)),
        Err(RequestRefused::Memory) => Err(AllocError),
    }
}

// The line of a fault.
fn fault_line(fault: HeadFault) -> &'static [u8]
    ensures { result.now ≡ line (request_text (head_fault_name fault)) }
{
    match fault {
        HeadFault::BadHead => b"request BadHead\n",
        HeadFault::NoHost => b"request NoHost\n",
        HeadFault::TwoHosts => b"request TwoHosts\n",
        HeadFault::BadLength => b"request BadLength\n",
        HeadFault::BothLengths => b"request BothLengths\n",
        HeadFault::BadCoding => b"request BadCoding\n",
        HeadFault::BadTarget => b"request BadTarget\n",
        HeadFault::BadEscape => b"request BadEscape\n",
    }
}

// The answer to a head without a fault, which makes this request.
fn answer_request(
    alloc: Global,
    config: &RuntimeConfig,
    entry: &[u8],
    peer: Ip,
    input: &[u8],
    room: &[HeaderSpan],
    spans: &HeadSpans,
    request: Request,
) -> Result<Answer, Memory>
    requires runtime { IsRuntime config.now.merged config.now }
    requires form { HaveOneServer config.now.merged }
    requires within { IsHeadWithin input.now room.now spans.now }
    requires sound { IsSound (span_bytes input.now spans.now.method) (span_bytes input.now spans.now.target) spans.now.version (lines_at input.now (take spans.now.lines room.now)) }
    requires escapes { HasWholeEscapes (path_of (span_bytes input.now spans.now.target)) }
    requires request { IsRequestOf (span_bytes input.now spans.now.method) (span_bytes input.now spans.now.target) spans.now.version (lines_at input.now (take spans.now.lines room.now)) peer request }
    ensures told { IfOk result (λ a. (h : RequestHead) → IsHeadAt input.now room.now spans.now h
        → HeadAnswer config.now.merged config.now.table.rows entry.now peer h (drop spans.now.len input.now) a.status a.text.items) }
    ensures apart { IfOk result (λ a. (a.status ≢ 5) × (a.status ≢ 6)) }
{
    let view = view_of(input, room, spans, &request);
    if is_later(&request, &view) {
        return make_answer(alloc, 4, b"request Later\n");
    }
    if spans.len < input.len() {
        return make_answer(alloc, 4, b"request Trailing\n");
    }
    let winner = config.winner(alloc, entry, &view, peer)?;
    let text = route_line(alloc, config, winner, request, peer)?;
    Ok(Answer { status: 0, text })
}

// What rules see of the head and of its request.
fn view_of<'a>(
    input: &'a [u8],
    room: &'a [HeaderSpan],
    spans: &HeadSpans,
    request: &'a Request,
) -> RequestView<'a>
    requires { IsHeadWithin input.now room.now spans.now }
    ensures lines { view_lines result ≡ lines_at input.now (take spans.now.lines room.now) }
    ensures asked { asked_of result ≡ asked_from (span_bytes input.now spans.now.method) request.now (lines_at input.now (take spans.now.lines room.now)) }
{
    let host = host_of_rules(request.host.as_slice());
    let query = query_of(&request.query);
    view(input, room, spans, host, request.path.as_slice(), query)
}

// The bytes of a query, which may be absent.
fn query_of(query: &Option<Bytes>) -> &[u8]
    ensures { result.now ≡ query_bytes query.now }
{
    match query {
        Some(query) => query.as_slice(),
        None => b"".as_slice(),
    }
}

// Whether the request is of a kind that isn't routed yet.
fn is_later(request: &Request, view: &RequestView<'_>) -> bool
    ensures { IsTrue result ↔ IsLaterBy request.now.framing (values_of (codes "Connection") (view_lines view.now)) request.now.version request.now.method }
{
    has_body(request.framing)
        || has_field(view, b"Connection")
        || request.version == 0
        || is_head(request.method.as_slice())
}

fn has_body(framing: Framing) -> bool
    ensures { IsTrue result ↔ (framing ≢ Framing.None) }
{
    !matches!(framing, Framing::None)
}

fn is_head(method: &[u8]) -> bool
    ensures { IsTrue result ↔ (method.now ≡ codes "HEAD") }
{
    method == b"HEAD".as_slice()
}

// Whether a line has this name.
fn has_field(view: &RequestView<'_>, name: &[u8]) -> bool
    ensures { IsTrue result ↔ (values_of name.now (view_lines view.now) ≢ []) }
{
    let mut values = view.field(name);
    match values.next() {
        Some(_) => true,
        None => false,
    }
}
