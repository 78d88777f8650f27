//! How a configuration is made ready to run.
ghost use Rattle.std.specs.Prelude.{◌≡◌, ◌-◌, ◌<◌, ◌≤◌, ◌^◌, length, map, IfOk};
ghost use Rattle.router_table.specs.Rows.{AreRows, Refuses};
ghost use Rattle.router_table.specs.Settings.{setting_of};
ghost use Rattle.runtime_config.specs.Usable.{name_of, usable_of};
ghost use Rattle.runtime_config.specs.Runtime.{IsCounted, IsRuntime};

use crate::config::RuntimeConfig;
use crate::linking::links_of;
use crate::usable::{names_of, usable_middlewares};
use dyn_config::Merged;
use middleware_chain::{Chains, build_chains, built, states};
use px_base::Memory;
use router_table::{Table, build_table, rows};
use rule_eval::PatternShop;
use service_nodes::{Graph, build_graph};
use std::alloc::Global;

/// How many patterns the middlewares and the routers of a configuration may have together.
const MAX_PATTERNS: u32 = 256;

/// Makes a configuration ready to run: its services are judged first, then its middlewares, then its routers.
///
/// What has a fault doesn't serve. It disables what refers to it, and nothing else, but that its patterns count as well.
pub fn build_runtime<S: PatternShop>(
    alloc: Global,
    merged: Merged,
    shop: &mut S,
) -> Result<RuntimeConfig, Memory>
    // As after a merge, which gives at most 1,000.
    requires { length merged.services < 2 ^ 32 }
    ensures built { IfOk result (IsRuntime merged) }
    // No more middlewares and routers are disabled for a pattern that is too big than the shop counted refusals in this call.
    ensures counted { IfOk result (IsCounted (S.refusals shop.old) (S.refusals shop.new)) }
    ensures later { S.refusals shop.old ≤ S.refusals shop.new }
{
    let graph = build_graph(alloc, &merged)?;
    let chains = build_chains(alloc, &merged, MAX_PATTERNS, shop)?;
    let table = table_of(alloc, &merged, &graph, &chains, shop)?;
    let links = links_of(alloc, &chains, rows(&table))?;
    Ok(RuntimeConfig {
        merged,
        graph,
        chains,
        table,
        links,
    })
}

// The routers, which may lead to nodes and name the middlewares that can be used, and have the patterns that those left.
fn table_of<S: PatternShop>(
    alloc: Global,
    merged: &Merged,
    graph: &Graph,
    chains: &Chains,
    shop: &mut S,
) -> Result<Table, Memory>
    requires { chains.now.built ≤ 256 }
    ensures rows { IfOk result (λ table. AreRows (setting_of merged.now (map name_of graph.now.nodes) (usable_of chains.now.middlewares)) (256 - chains.now.built) merged.now.routers table.rows) }
    ensures refused { IfOk result (λ table. Refuses (S.refusals shop.old) (S.refusals shop.new) table.rows) }
    ensures later { S.refusals shop.old ≤ S.refusals shop.new }
{
    let services = names_of(alloc, graph.nodes.as_slice())?;
    let middlewares = usable_middlewares(alloc, states(chains))?;
    build_table(
        alloc,
        merged,
        services.as_slice(),
        middlewares.as_slice(),
        MAX_PATTERNS - built(chains),
        shop,
    )
}
