//! What a router refers to: its service and its middlewares.
ghost use Rattle.std.specs.Prelude.{◌≡◌, ◌≤◌, ◌^◌, ◌-◌, min, map, IfOk, OnOk, IfErr};
ghost use Rattle.std.specs.List.{list_all};
ghost use Rattle.dyn_config.specs.Names.{referred};
ghost use Rattle.router_table.specs.Settings.{is_declared as has_declared, is_listed as has_listed, is_usable as has_usable, length_of as first_length, chain_length as whole_length, service_of as service_name, chain_of as chain_names};
ghost use Rattle.router_table.specs.Faults.{IsServed, IsChained, IsServiceFault, IsChainFault};
ghost use Rattle.router_table.specs.Steps.{IfFault, meant};

use crate::fault::{Refusal, RouterFault};
use crate::setting::Setting;
use dyn_config::{Entry, RouterDef, refer};
use px_base::{Bytes, List, Memory};
use std::alloc::Global;

/// The greatest number of a router's middlewares, those of chains counted.
const MAX_CHAIN: u32 = 64;

// The qualified name of a router's service, which is usable.
pub(crate) fn service_of(
    alloc: Global,
    setting: &Setting<'_>,
    entry: &Entry<RouterDef>,
) -> Result<Bytes, Refusal>
    requires { entry.now.provider ≤ 1 }
    ensures name { IfOk result (λ name. name ≡ service_name entry.now) }
    ensures served { OnOk result (IsServed (meant setting.now) entry.now) }
    ensures fault { IfErr result (IfFault (IsServiceFault (meant setting.now) entry.now)) }
{
    if entry.def.service.is_empty() {
        return Err(Refusal::Fault(RouterFault::NoService));
    }
    let name = refer(alloc, entry.provider, entry.def.service.as_slice())?;
    if !is_declared(setting.merged.services.as_slice(), name.as_slice()) {
        return Err(Refusal::Fault(RouterFault::MissingService));
    }
    if !is_listed(setting.services, name.as_slice()) {
        return Err(Refusal::Fault(RouterFault::BadService));
    }
    Ok(name)
}

// The qualified names of a router's middlewares, which are usable and few.
pub(crate) fn chain_of(
    alloc: Global,
    setting: &Setting<'_>,
    entry: &Entry<RouterDef>,
) -> Result<List<Bytes>, Refusal>
    requires { entry.now.provider ≤ 1 }
    ensures names { IfOk result (λ names. names ≡ chain_names entry.now) }
    ensures chained { OnOk result (IsChained (meant setting.now) entry.now) }
    ensures fault { IfErr result (IfFault (IsChainFault (meant setting.now) entry.now)) }
{
    let names = names_of(alloc, entry.provider, entry.def.middlewares.as_slice())?;
    if !are_declared(setting, names.as_slice()) {
        return Err(Refusal::Fault(RouterFault::MissingMiddleware));
    }
    if !are_usable(setting.middlewares, names.as_slice()) {
        return Err(Refusal::Fault(RouterFault::BadMiddleware));
    }
    if chain_length(setting.middlewares, names.as_slice()) > MAX_CHAIN {
        return Err(Refusal::Fault(RouterFault::ChainTooLong));
    }
    Ok(names)
}

// The qualified names that references of a provider's router stand for.
fn names_of(alloc: Global, provider: u32, references: &[Bytes]) -> Result<List<Bytes>, Memory>
    requires { provider ≤ 1 }
    ensures { IfOk result (λ names. names ≡ map (referred provider) references.now) }
{
    let mut names = List::new(alloc);
    for reference in references {
        names.push(refer(alloc, provider, reference.as_slice())?)?;
    }
    Ok(names)
}

// Whether an entry has this name.
fn is_declared<D>(entries: &[Entry<D>], name: &[u8]) -> bool
    ensures { result ≡ has_declared entries.now name.now }
{
    entries.iter().any(|entry| entry.name.as_slice() == name)
}

// Whether one of the names is this.
pub(crate) fn is_listed(names: &[Bytes], name: &[u8]) -> bool
    ensures { result ≡ has_listed names.now name.now }
{
    names.iter().any(|own| own.as_slice() == name)
}

fn are_declared(setting: &Setting<'_>, names: &[Bytes]) -> bool
    ensures { result ≡ list_all (has_declared (meant setting.now).middlewares) names.now }
{
    let entries = setting.merged.middlewares.as_slice();
    names
        .iter()
        .all(|name| is_declared(entries, name.as_slice()))
}

fn are_usable(usable: &[(Bytes, u32)], names: &[Bytes]) -> bool
    ensures { result ≡ list_all (has_usable usable.now) names.now }
{
    names.iter().all(|name| is_usable(usable, name.as_slice()))
}

// Whether a usable middleware has this name.
fn is_usable(usable: &[(Bytes, u32)], name: &[u8]) -> bool
    ensures { result ≡ has_usable usable.now name.now }
{
    usable.iter().any(|one| one.0.as_slice() == name)
}

// The flattened length of a chain; it stays at 2^32 - 1 once it is there.
fn chain_length(usable: &[(Bytes, u32)], names: &[Bytes]) -> u32
    ensures { result ≡ min (whole_length usable.now names.now) (2 ^ 32 - 1) }
{
    let mut length: u32 = 0;
    for name in names {
        length = length.saturating_add(length_of(usable, name.as_slice()));
    }
    length
}

// The flattened length of the first usable middleware with this name.
fn length_of(usable: &[(Bytes, u32)], name: &[u8]) -> u32
    ensures { result ≡ first_length usable.now name.now }
{
    for one in usable {
        if one.0.as_slice() == name {
            return one.1;
        }
    }
    0
}
