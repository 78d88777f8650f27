//! How a configuration becomes a generation.
ghost use Rattle.std.specs.Prelude.{◌≡◌, ◌≤◌, IfOk, map};
ghost use Rattle.generation.specs.Nodes.{name_of};
ghost use Rattle.generation.specs.Built.{IsBuilt, IsCounted};

use crate::generation::Generation;
use crate::nodes::{Node, read_nodes};
use dyn_config::Merged;
use px_base::{Bytes, Memory};
use router_table::build_table;
use rule_eval::PatternShop;
use service_graph::is_first_form;
use std::alloc::Global;

/// What a configuration is built to.
#[derive(Drop)]
pub enum Built {
    Generation(Generation),
    /// It is of a kind that isn't served yet: a middleware is declared or named, or a service isn't a balancer of exactly
    /// one server of positive weight under an `http` URL, without stickiness and health checks.
    Later,
}

/// Builds the generation with this number of a configuration.
///
/// Routers with a fault don't serve, and leave the others alone.
pub fn build_generation<S: PatternShop>(
    alloc: Global,
    number: u64,
    merged: &Merged,
    shop: &mut S,
) -> Result<Built, Memory>
    ensures built { IfOk result (IsBuilt number merged.now) }
    // No more routers are disabled for a pattern that is too big than the shop counted refusals in this call.
    ensures counted { IfOk result (IsCounted (S.refusals shop.old) (S.refusals shop.new)) }
    ensures later { S.refusals shop.old ≤ S.refusals shop.new }
{
    if !is_first_form(alloc, merged)? {
        return Ok(Built::Later);
    }
    let nodes = read_nodes(alloc, merged.services.as_slice())?;
    let names = names_of(alloc, nodes.as_slice())?;
    let table = build_table(alloc, merged, names.as_slice(), &[], 256, shop)?;
    Ok(Built::Generation(Generation {
        number,
        table,
        nodes,
    }))
}

// The names of the nodes.
fn names_of(alloc: Global, nodes: &[Node]) -> Result<Vec<Bytes>, Memory>
    ensures { IfOk result (λ names. names.items ≡ map name_of nodes.now) }
{
    let mut names = Vec::new(alloc);
    for node in nodes {
        names.push(Bytes::from_slice(alloc, node.name.as_slice())?)?;
    }
    Ok(names)
}
