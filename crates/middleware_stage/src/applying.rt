//! A middleware, applied to a request.
ghost use Rattle.std.specs.Prelude.{◌≡◌, ◌↔◌, IsTrue, IfOk, option_map};
ghost use Rattle.rule_eval.specs.Truth.{IsPeerIn};
ghost use Rattle.middleware_stage.specs.Effects.{IsAllowed, body_limit_of, is_longer as is_longer_than, is_over as is_over_limit};
ghost use Rattle.middleware_stage.specs.Flows.{Flows, GuardFlows, LimitFlows, RedirectFlows};
ghost use Rattle.middleware_stage.specs.Stage.{stage_def};
ghost use Rattle.middleware_stage.specs.Views.{range_texts};

use crate::headers::change_request;
use crate::paths::location_of;
use crate::range::Range;
use crate::redirects::{redirect_status, regex_target, scheme_target};
use crate::rewriting::{add_prefix, replace_matches, replace_path, strip_prefix};
use crate::stage::{Kind, Stage, StageFlow};
use body_codec::Framing;
use http_wire::Request;
use ip_net::{Ip, contains};
use px_base::{List, Memory};
use std::alloc::Global;

/// Applies the middleware to a request of this peer: passes it on, perhaps changed, or stops it with an own reply.
///
/// Where memory runs out the request is lost.
pub fn apply_stage(
    alloc: Global,
    stage: &Stage,
    request: Request,
    peer: Ip,
) -> Result<StageFlow, Memory>
    ensures { IfOk result (Flows (stage_def stage.now) request peer) }
{
    match &stage.kind {
        Kind::AddPrefix { prefix } => pass(add_prefix(alloc, prefix.as_slice(), request)?),
        Kind::StripPrefix { prefixes } => pass(strip_prefix(alloc, prefixes, request)?),
        Kind::ReplacePath { path } => pass(replace_path(alloc, path.as_slice(), request)?),
        Kind::ReplacePathRegex { rewrite } => pass(replace_matches(alloc, rewrite, request)?),
        Kind::Headers {
            request: changes,
            ..
        } => pass(change_request(alloc, changes, request)?),
        Kind::IpAllowList { ranges } => Ok(let_in(ranges, request, peer)),
        Kind::Buffering { max_body } => Ok(hold_to(limit_of(*max_body), request)),
        Kind::RedirectScheme {
            scheme,
            port,
            permanent,
        } => {
            let target = scheme_target(alloc, scheme.as_slice(), port.as_slice(), &request)?;
            redirect(alloc, target, *permanent, request)
        }
        Kind::RedirectRegex { rewrite, permanent } => {
            let target = regex_target(alloc, rewrite, &request)?;
            redirect(alloc, target, *permanent, request)
        }
    }
}

fn pass(request: Request) -> Result<StageFlow, Memory>
    ensures { result ≡ Ok (StageFlow.Pass request None) }
{
    Ok(StageFlow::Pass {
        request,
        body_limit: None,
    })
}

// The most that a body may have; 0 or less is no limit.
fn limit_of(max_body: i64) -> Option<u64>
    ensures { result ≡ body_limit_of max_body }
{
    if max_body > 0 {
        Some(max_body as u64)
    } else {
        None
    }
}

// Passes the request on with this limit on its body, or answers 413 where its head says that the body is longer.
fn hold_to(limit: Option<u64>, request: Request) -> StageFlow
    ensures { LimitFlows limit request result }
{
    if is_over(limit, request.framing) {
        StageFlow::Stop {
            status: 413,
            location: None,
        }
    } else {
        StageFlow::Pass {
            request,
            body_limit: limit,
        }
    }
}

fn is_over(limit: Option<u64>, framing: Framing) -> bool
    ensures { result ≡ is_over_limit limit framing }
{
    match limit {
        Some(limit) => is_longer(limit, framing),
        None => false,
    }
}

fn is_longer(limit: u64, framing: Framing) -> bool
    ensures { result ≡ is_longer_than limit framing }
{
    match framing {
        Framing::None => false,
        Framing::Length(length) => limit < length,
        Framing::Chunked => false,
        Framing::ToEnd => false,
    }
}

// Passes the request on, or answers 403 where no range has the peer's address.
fn let_in(ranges: &List<Range>, request: Request, peer: Ip) -> StageFlow
    ensures { GuardFlows (IsAllowed (range_texts ranges.now) peer) request result }
{
    if is_allowed(ranges, peer) {
        StageFlow::Pass {
            request,
            body_limit: None,
        }
    } else {
        StageFlow::Stop {
            status: 403,
            location: None,
        }
    }
}

// Whether a range has the peer's address.
fn is_allowed(ranges: &List<Range>, peer: Ip) -> bool
    ensures { IsTrue result ↔ IsAllowed (range_texts ranges.now) peer }
{
    for range in ranges.as_slice() {
        if has_peer(range, peer) {
            return true;
        }
    }
    false
}

fn has_peer(range: &Range, peer: Ip) -> bool
    ensures { IsTrue result ↔ IsPeerIn range.now.text peer }
{
    contains(&range.net, peer)
}

// Redirects the request where there is a target, and else passes it on.
fn redirect(
    alloc: Global,
    target: Option<Vec<u8>>,
    permanent: bool,
    request: Request,
) -> Result<StageFlow, Memory>
    ensures { IfOk result (RedirectFlows (option_map (λ text. text.items) target) permanent request) }
{
    let Some(target) = target else {
        return pass(request);
    };
    let location = location_of(alloc, target.as_slice())?;
    Ok(StageFlow::Stop {
        status: redirect_status(permanent, request.method.as_slice()),
        location: Some(location),
    })
}
