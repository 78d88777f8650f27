//! Middlewares by their names.
ghost use Rattle.std.specs.Prelude.{◌≡◌, ◌≤◌, map, IfOk};
ghost use Rattle.middleware_chain.specs.Built.{listed_name};
ghost use Rattle.middleware_chain.specs.Names.{name_of, place_from, place_of as declared_place};

use dyn_config::{Entry, MiddlewareDef, refer};
use middleware_graph::State;
use px_base::{Bytes, List, Memory};
use std::alloc::Global;

// Where the references of a provider's chain lead.
pub(crate) fn members_of(
    alloc: Global,
    entries: &[Entry<MiddlewareDef>],
    provider: u32,
    references: &[Bytes],
) -> Result<List<Option<usize>>, Memory>
    requires { provider ≤ 1 }
    ensures { IfOk result (λ members. members ≡ map (declared_place entries.now provider) references.now) }
{
    let mut members = List::new(alloc);
    for reference in references {
        members.push(place_of(alloc, entries, provider, reference.as_slice())?)?;
    }
    Ok(members)
}

fn place_of(
    alloc: Global,
    entries: &[Entry<MiddlewareDef>],
    provider: u32,
    reference: &[u8],
) -> Result<Option<usize>, Memory>
    requires { provider ≤ 1 }
    ensures { IfOk result (λ place. place ≡ declared_place entries.now provider reference.now) }
{
    let name = refer(alloc, provider, reference)?;
    Ok(place_declared(entries, name.as_slice()))
}

// The place of the middleware that is declared under this name.
fn place_declared(entries: &[Entry<MiddlewareDef>], name: &[u8]) -> Option<usize>
    ensures { result ≡ place_from name_of 0 entries.now name.now }
{
    for (at, entry) in entries.iter().enumerate() {
        if entry.name.as_slice() == name {
            return Some(at);
        }
    }
    None
}

// The place of the middleware with this name.
pub(crate) fn place_listed(middlewares: &[(Bytes, State)], name: &[u8]) -> Option<usize>
    ensures { result ≡ place_from listed_name 0 middlewares.now name.now }
{
    for (at, middleware) in middlewares.iter().enumerate() {
        if middleware.0.as_slice() == name {
            return Some(at);
        }
    }
    None
}
