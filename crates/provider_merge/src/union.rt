//! What two providers declare, by qualified names.
ghost use Rattle.std.specs.Prelude.{◌≡◌, ◌≤◌, ◌++◌, true, IfOk, OnOk};
ghost use Rattle.std.specs.List.{list_all};
ghost use Rattle.dyn_config.specs.Names.{qualified, suffix_of as suffix_bytes};
ghost use Rattle.dyn_config.specs.Kept.{IsNamed, is_service, is_middleware};
ghost use Rattle.dyn_config.specs.Joined.{IsQualified};
ghost use Rattle.provider_merge.specs.Merging.{entries_of, IsUnion};

use dyn_config::{Entry, MiddlewareDef, RouterDef, ServiceDef};
use px_base::{Bytes, List, Memory};
use std::alloc::Global;

pub(crate) fn routers_of(
    alloc: Global,
    file: List<(Bytes, RouterDef)>,
    consul: List<(Bytes, RouterDef)>,
) -> Result<List<Entry<RouterDef>>, Memory>
    requires file { IsNamed file }
    requires consul { IsNamed consul }
    ensures union { IfOk result (IsUnion file consul) }
    ensures qualified { IfOk result (λ entries. IsQualified entries) }
{
    let entries = union(alloc, file, consul)?;
    Ok(entries)
}

pub(crate) fn services_of(
    alloc: Global,
    file: List<(Bytes, ServiceDef)>,
    consul: List<(Bytes, ServiceDef)>,
) -> Result<List<Entry<ServiceDef>>, Memory>
    requires file { IsNamed file }
    requires consul { IsNamed consul }
    requires file_in_range { list_all (λ entry. is_service entry.1) file ≡ true }
    requires consul_in_range { list_all (λ entry. is_service entry.1) consul ≡ true }
    ensures union { IfOk result (IsUnion file consul) }
    ensures qualified { IfOk result (λ entries. IsQualified entries) }
    ensures in_range { IfOk result (λ entries. list_all (λ e. is_service e.def) entries ≡ true) }
{
    let entries = union(alloc, file, consul)?;
    Ok(entries)
}

pub(crate) fn middlewares_of(
    alloc: Global,
    file: List<(Bytes, MiddlewareDef)>,
    consul: List<(Bytes, MiddlewareDef)>,
) -> Result<List<Entry<MiddlewareDef>>, Memory>
    requires file { IsNamed file }
    requires consul { IsNamed consul }
    requires file_in_range { list_all (λ entry. is_middleware entry.1) file ≡ true }
    requires consul_in_range { list_all (λ entry. is_middleware entry.1) consul ≡ true }
    ensures union { IfOk result (IsUnion file consul) }
    ensures qualified { IfOk result (λ entries. IsQualified entries) }
    ensures in_range { IfOk result (λ entries. list_all (λ e. is_middleware e.def) entries ≡ true) }
{
    let entries = union(alloc, file, consul)?;
    Ok(entries)
}

// What both providers declare, by qualified names.
fn union<D: Drop>(
    alloc: Global,
    file: List<(Bytes, D)>,
    consul: List<(Bytes, D)>,
) -> Result<List<Entry<D>>, Memory>
    requires file { IsNamed file }
    requires consul { IsNamed consul }
    ensures union { IfOk result (IsUnion file consul) }
    ensures qualified { IfOk result (λ entries. IsQualified entries) }
{
    let mut entries = Vec::new(alloc);
    add(0, file.into_vec(), &mut entries)?;
    add(1, consul.into_vec(), &mut entries)?;
    entries.sort_by(|a, b| a.name.as_slice().cmp(b.name.as_slice()))?;
    Ok(List::from_vec(entries))
}

// Adds what a provider declares, under qualified names.
fn add<D: Drop>(
    provider: u32,
    declared: Vec<(Bytes, D)>,
    entries: &mut Vec<Entry<D>>,
) -> Result<(), Memory>
    requires { provider ≤ 1 }
    ensures { OnOk result (entries.new.items ≡ entries.old.items ++ entries_of provider declared.items) }
{
    for (name, def) in declared {
        let name = qualified_name(provider, name)?;
        entries.push(Entry {
            name,
            provider,
            def,
        })?;
    }
    Ok(())
}

fn qualified_name(provider: u32, name: Bytes) -> Result<Bytes, Memory>
    requires { provider ≤ 1 }
    ensures { IfOk result (λ full. full ≡ qualified provider name) }
{
    let mut full = name.into_vec();
    full.extend_from_slice(suffix(provider))?;
    Ok(Bytes::from_vec(full))
}

fn suffix(provider: u32) -> &'static [u8]
    requires { provider ≤ 1 }
    ensures { result.now ≡ suffix_bytes provider }
{
    if provider == 0 {
        b"@file".as_slice()
    } else {
        b"@consul".as_slice()
    }
}
