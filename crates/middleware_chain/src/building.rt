//! The middlewares of a configuration, judged and built.
ghost use Rattle.std.specs.Prelude.{◌≡◌, ◌≤◌, length, map, IfOk};
ghost use Rattle.middleware_chain.specs.Built.{AreChains, Refuses, listed_name, listed_state};
ghost use Rattle.middleware_chain.specs.Names.{name_of};
ghost use Rattle.middleware_chain.specs.Parts.{AreParts};

use crate::chains::Chains;
use crate::part::Part;
use crate::parts::{nodes_of, parts_of};
use dyn_config::{Entry, Merged, MiddlewareDef};
use middleware_graph::{State, flatten, states_of};
use px_base::{Bytes, List, Memory};
use rule_eval::PatternShop;
use std::alloc::Global;

/// Judges the middlewares of a configuration and builds those that can be used, by name. `spare` patterns may be built.
pub fn build_chains<S: PatternShop>(
    alloc: Global,
    merged: &Merged,
    spare: u32,
    shop: &mut S,
) -> Result<Chains, Memory>
    ensures chains { IfOk result (AreChains merged.now.middlewares spare) }
    // The shop refused a pattern for each middleware that is disabled for that.
    ensures refused { IfOk result (Refuses (S.refusals shop.old) (S.refusals shop.new)) }
    ensures later { S.refusals shop.old ≤ S.refusals shop.new }
{
    let entries = merged.middlewares.as_slice();
    let mut left = spare;
    let parts = parts_of(alloc, entries, &mut left, shop)?;
    chains_of(alloc, entries, parts, spare, left)
}

// The middlewares that these are by themselves, with so many patterns left of those that might be built.
fn chains_of(
    alloc: Global,
    entries: &[Entry<MiddlewareDef>],
    parts: List<Part>,
    spare: u32,
    left: u32,
) -> Result<Chains, Memory>
    requires parts { AreParts entries.now spare entries.now parts left }
    requires fewer { left ≤ spare }
    ensures chains { IfOk result (AreChains entries.now spare) }
    ensures same { IfOk result (λ chains. chains.parts ≡ parts) }
{
    let all = nodes_of(alloc, parts.as_slice())?;
    let nodes = all.as_slice();
    let flats = flatten(alloc, nodes)?;
    let states = states_of(alloc, nodes, flats.as_slice())?;
    let middlewares = listed(alloc, entries, states.as_slice())?;
    Ok(Chains {
        middlewares,
        parts,
        flats,
        built: spare - left,
    })
}

// The names with their states.
fn listed(
    alloc: Global,
    entries: &[Entry<MiddlewareDef>],
    states: &[State],
) -> Result<List<(Bytes, State)>, Memory>
    requires { length states.now ≡ length entries.now }
    ensures names { IfOk result (λ middlewares. map listed_name middlewares ≡ map name_of entries.now) }
    ensures states { IfOk result (λ middlewares. map listed_state middlewares ≡ states.now) }
{
    let mut middlewares = List::new(alloc);
    for (at, entry) in entries.iter().enumerate() {
        let name = Bytes::from_slice(alloc, entry.name.as_slice())?;
        middlewares.push((name, states[at]))?;
    }
    Ok(middlewares)
}
