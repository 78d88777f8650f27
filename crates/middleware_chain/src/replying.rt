//! A chain, asked of a reply.
ghost use Rattle.std.specs.Prelude.{◌≡◌, true, IfOk};
ghost use Rattle.middleware_chain.specs.Chained.{IsChainOf, defs_of};
ghost use Rattle.middleware_chain.specs.Folds.{BackThrough};
ghost use Rattle.middleware_chain.specs.Stages.{are_built, defs_at};
ghost use Rattle.middleware_chain.specs.Written.{IsSafeReply};

use crate::applying::stage_at;
use crate::chain::Chain;
use crate::chains::Chains;
use crate::part::Part;
use http_wire::Reply;
use middleware_stage::apply_stage_reply;
use px_base::Memory;
use std::alloc::Global;

/// Asks the middlewares of the chain what to do with a reply, the last one first.
///
/// Where memory runs out the reply is lost.
pub fn apply_reply(
    alloc: Global,
    chains: &Chains,
    chain: &Chain,
    reply: Reply,
) -> Result<Reply, Memory>
    requires { IsChainOf chains.now chain.now }
    ensures through { IfOk result (BackThrough (defs_of chains.now chain.now) reply) }
    ensures safe { IfOk result (IsSafeReply reply) }
{
    back_through(
        alloc,
        chains.parts.as_slice(),
        chain.places.as_slice(),
        reply,
    )
}

fn back_through(
    alloc: Global,
    parts: &[Part],
    places: &[usize],
    reply: Reply,
) -> Result<Reply, Memory>
    requires { are_built parts.now places.now ≡ true }
    ensures { IfOk result (BackThrough (defs_at parts.now places.now) reply) }
{
    let mut reply = reply;
    let mut left = places.len();
    while left > 0 {
        left -= 1;
        reply = apply_stage_reply(alloc, stage_at(parts, places[left]), reply)?;
    }
    Ok(reply)
}
