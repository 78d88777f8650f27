//! A chain, asked of a request.
ghost use Rattle.std.specs.Prelude.{◌≡◌, ◌≤◌, true, length, is_some, IfOk, IsTrue, Some};
ghost use Rattle.middleware_chain.specs.Chained.{IsChainOf, defs_of};
ghost use Rattle.middleware_chain.specs.Folds.{Through, least as least_of};
ghost use Rattle.middleware_chain.specs.Stages.{are_built, built_at, defs_at, is_built};
ghost use Rattle.middleware_chain.specs.Written.{IsSafe, is_one_word};

use crate::chain::Chain;
use crate::chains::Chains;
use crate::flow::Flow;
use crate::part::Part;
use http_wire::Request;
use ip_net::Ip;
use middleware_stage::{Stage, StageFlow, apply_stage};
use px_base::Memory;
use std::alloc::Global;

/// Asks the middlewares of the chain in order what to do with a request of this peer: it goes on, perhaps changed, or the first that
/// stops it does, with an own reply.
///
/// Where memory runs out the request is lost.
pub fn apply(
    alloc: Global,
    chains: &Chains,
    chain: &Chain,
    request: Request,
    peer: Ip,
) -> Result<Flow, Memory>
    requires { IsChainOf chains.now chain.now }
    ensures through { IfOk result (Through (defs_of chains.now chain.now) request peer) }
    // Whatever the chain is, where the path is one word: what goes on carries nothing by which a message could be smuggled.
    ensures safe { IfOk result (λ flow. IsTrue (is_one_word request.path) → IsSafe request flow) }
{
    through(
        alloc,
        chains.parts.as_slice(),
        chain.places.as_slice(),
        request,
        peer,
    )
}

fn through(
    alloc: Global,
    parts: &[Part],
    places: &[usize],
    request: Request,
    peer: Ip,
) -> Result<Flow, Memory>
    requires built { are_built parts.now places.now ≡ true }
    requires few { length places.now ≤ 64 }
    ensures { IfOk result (Through (defs_at parts.now places.now) request peer) }
{
    let mut request = request;
    let mut limit = None;
    for (at, place) in places.iter().enumerate() {
        match apply_stage(alloc, stage_at(parts, *place), request, peer)? {
            StageFlow::Pass {
                request: next,
                body_limit,
            } => {
                request = next;
                limit = least(limit, body_limit);
            }
            StageFlow::Stop { status, location } => {
                return Ok(Flow::Stop {
                    place: at as u32,
                    status,
                    location,
                });
            }
        }
    }
    Ok(Flow::Pass {
        request,
        body_limit: limit,
    })
}

// What is built at a place.
pub(crate) fn stage_at(parts: &[Part], place: usize) -> &Stage
    requires { is_built parts.now place ≡ true }
    ensures { built_at parts.now place ≡ Some result.now }
{
    match parts.get(place) {
        Some(Part::Stage(stage)) => stage,
        Some(Part::Faulty(_)) => unreachable!(),
        Some(Part::Chain(_)) => unreachable!(),
        None => unreachable!(),
    }
}

// The lesser of two limits, where there are any.
fn least(a: Option<u64>, b: Option<u64>) -> Option<u64>
    ensures { result ≡ least_of a b }
{
    match (a, b) {
        (None, b) => b,
        (Some(a), None) => Some(a),
        (Some(a), Some(b)) => Some(a.min(b)),
    }
}
