//! The chains that names stand for.
ghost use Rattle.std.specs.Prelude.{◌≡◌, ◌≤◌, ℕ, List as ListOf, true, is_some, slice_get, IfOk};
ghost use Rattle.std.specs.Option.{option_copied};
ghost use Rattle.middleware_graph.specs.Tables.{told};
ghost use Rattle.middleware_chain.specs.Built.{AreChains};
ghost use Rattle.middleware_chain.specs.Chained.{IsChainOf, IsFlatNamed, defs_of};
ghost use Rattle.middleware_chain.specs.Counts.{are_all_usable, count_named, flat_length};
ghost use Rattle.middleware_chain.specs.Flattened.{IsFlattened};
ghost use Rattle.middleware_chain.specs.Names.{MiddlewareEntry};

use crate::chain::Chain;
use crate::chains::Chains;
use crate::naming::place_listed;
use middleware_graph::Flat;
use px_base::{Bytes, List, Memory};
use std::alloc::Global;

/// The chain that qualified names stand for, each being that of a middleware that can be used.
pub fn chain_of(alloc: Global, chains: &Chains, names: &[Bytes]) -> Result<Chain, Memory>
    requires usable { are_all_usable chains.now.middlewares names.now ≡ true }
    requires short { flat_length chains.now.middlewares names.now ≤ 64 }
    ensures there { IfOk result (IsChainOf chains.now) }
    ensures flattened { IfOk result (λ chain. (all : ListOf MiddlewareEntry) (spare : ℕ) → AreChains all spare chains.now
        → IsFlattened all names.now (defs_of chains.now chain)) }
{
    let mut places = Vec::new(alloc);
    for name in names {
        places.extend_from_slice(flat_named(chains, name.as_slice()))?;
    }
    Ok(Chain {
        places: List::from_vec(places),
    })
}

// What the middleware with this name stands for, which can be used.
fn flat_named<'a>(chains: &'a Chains, name: &[u8]) -> &'a [usize]
    requires { is_some (count_named chains.now.middlewares name.now) ≡ true }
    ensures { IsFlatNamed chains.now name.now result.now }
{
    let place = match place_listed(chains.middlewares.as_slice(), name) {
        Some(place) => place,
        None => unreachable!(),
    };
    match flat_at(chains.flats.as_slice(), place) {
        Some(places) => places,
        None => unreachable!(),
    }
}

fn flat_at(flats: &[Flat], place: usize) -> Option<&[usize]>
    ensures { option_copied result ≡ told (slice_get flats.now place) }
{
    match flats.get(place) {
        Some(Some(places)) => Some(places.as_slice()),
        Some(None) => None,
        None => None,
    }
}
