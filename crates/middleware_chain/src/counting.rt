//! For how many middlewares names stand.
ghost use Rattle.std.specs.Prelude.{◌≡◌, ◌^◌, ◌-◌, is_some, min};
ghost use Rattle.middleware_chain.specs.Counts.{are_all_usable, count_named as count_of_first, count_of as count_of_state, flat_length, length_named as length_of_first};

use crate::chains::Chains;
use middleware_graph::State;
use px_base::Bytes;

/// Whether each of the qualified names is that of a middleware that can be used.
pub fn are_usable(chains: &Chains, names: &[Bytes]) -> bool
    ensures { result ≡ are_all_usable chains.now.middlewares names.now }
{
    let middlewares = chains.middlewares.as_slice();
    names
        .iter()
        .all(|name| is_usable(middlewares, name.as_slice()))
}

fn is_usable(middlewares: &[(Bytes, State)], name: &[u8]) -> bool
    ensures { result ≡ is_some (count_of_first middlewares.now name.now) }
{
    count_named(middlewares, name).is_some()
}

/// For how many middlewares the qualified names stand together, or 2^32 - 1 where there are more.
pub fn flat_len(chains: &Chains, names: &[Bytes]) -> u32
    ensures { result ≡ min (flat_length chains.now.middlewares names.now) (2 ^ 32 - 1) }
{
    let middlewares = chains.middlewares.as_slice();
    let mut length: u32 = 0;
    for name in names {
        length = length.saturating_add(length_named(middlewares, name.as_slice()));
    }
    length
}

fn length_named(middlewares: &[(Bytes, State)], name: &[u8]) -> u32
    ensures { result ≡ length_of_first middlewares.now name.now }
{
    count_named(middlewares, name).unwrap_or(0)
}

// For how many the first middleware with this name stands, where it can be used.
fn count_named(middlewares: &[(Bytes, State)], name: &[u8]) -> Option<u32>
    ensures { result ≡ count_of_first middlewares.now name.now }
{
    for middleware in middlewares {
        if middleware.0.as_slice() == name {
            return count_of(middleware.1);
        }
    }
    None
}

fn count_of(state: State) -> Option<u32>
    ensures { result ≡ count_of_state state }
{
    match state {
        State::Enabled(count) => Some(count),
        State::Disabled(_) => None,
    }
}
