//! A tree as a configuration.

ghost use Rattle.std.specs.Prelude.{◌≡◌, [], map, drop, None, IfOk, unwrap_or};
ghost use Rattle.std.specs.Option.{option_copied};
ghost use Rattle.field_tree.specs.Table.{KeysRise};
ghost use Rattle.dyn_config.specs.Schema.{configuration};
ghost use Rattle.dyn_config.specs.Readings.{declared_under, router_of, routers_of, service_of, services_of, middleware_of, middlewares_of};
ghost use Rattle.dyn_config.specs.Decoding.{told_as, IsTold, IsReadFrom, IsDecoded};

use crate::found::{Cause, Fault};
use crate::kinds::{read_middleware, read_service};
use crate::lists::fields_under;
use crate::options::value_under;
use crate::readers::read_router;
use crate::schema::{Shape, Table};
use crate::walk::check;
use crate::{Config, ConfigFault, MiddlewareDef, RouterDef, ServiceDef};
use field_tree::{Fields, Style, Tree};
use px_base::{Bytes, List, Memory};
use std::alloc::{AllocError, Global};

/// The configuration that a tree is: exactly where the walk over the tree by the schema meets no fault, and
/// otherwise the fault that the walk meets first.
pub fn decode(alloc: Global, tree: &Tree, style: Style) -> Result<Config, ConfigFault>
    ensures { IsDecoded style tree.now result }
{
    match check(alloc, style, Shape::Options(Table::Top), tree) {
        Err(AllocError) => Err(ConfigFault::Memory),
        Ok(Some(fault)) => Err(public_fault(alloc, &fault)),
        Ok(None) => match read_config(alloc, style, tree) {
            Err(AllocError) => Err(ConfigFault::Memory),
            Ok(config) => Ok(config),
        },
    }
}

/// The fault as it is told: its path without the dot before the first key.
fn public_fault(alloc: Global, fault: &Fault) -> ConfigFault
    ensures { IsTold fault.now result }
{
    match Bytes::from_slice(alloc, after_first(fault.path.as_slice())) {
        Err(AllocError) => ConfigFault::Memory,
        Ok(path) => told_as(fault.cause, path),
    }
}

fn told_as(cause: Cause, path: Bytes) -> ConfigFault
    ensures { result ≡ told_as cause path }
{
    match cause {
        Cause::Unknown => ConfigFault::Unknown { path },
        Cause::Twice => ConfigFault::Twice { path },
        Cause::Kind => ConfigFault::Kind { path },
        Cause::Missing => ConfigFault::Missing { path },
        Cause::Range => ConfigFault::Range { path },
        Cause::BadName => ConfigFault::BadName { path },
        Cause::TooMany => ConfigFault::TooMany { path },
    }
}

fn after_first(text: &[u8]) -> &[u8]
    ensures { result.now ≡ drop 1 text.now }
{
    if text.is_empty() { text } else { &text[1..] }
}

/// The configuration of a tree without a fault.
fn read_config(alloc: Global, style: Style, tree: &Tree) -> Result<Config, Memory>
    requires { configuration style tree.now ≡ None }
    ensures { IfOk result (λ config. IsReadFrom style tree.now config) }
{
    let routers = read_routers(alloc, style, tree)?;
    let services = read_services(alloc, style, tree)?;
    let middlewares = read_middlewares(alloc, style, tree)?;
    names_rise(b"routers", tree);
    names_rise(b"services", tree);
    names_rise(b"middlewares", tree);
    Ok(Config {
        routers,
        services,
        middlewares,
    })
}

/// What is declared under a key of `http`.
fn declared_under<'a>(key: &[u8], tree: &'a Tree) -> Option<&'a Fields<Tree>>
    ensures { unwrap_or (option_copied result) [] ≡ declared_under key.now tree.now }
{
    match value_under(b"http", tree) {
        None => None,
        Some(http) => fields_under(key, http),
    }
}

/// Declared names rise: every table keeps its keys so.
fn names_rise(key: &[u8], tree: &Tree)
    ensures { KeysRise (declared_under key.now tree.now) }
{
    match declared_under(key, tree) {
        None => {}
        Some(fields) => {
            let _len = fields.len();
        }
    }
}

fn read_routers(
    alloc: Global,
    style: Style,
    tree: &Tree,
) -> Result<List<(Bytes, RouterDef)>, Memory>
    ensures { IfOk result (λ defs. defs ≡ routers_of style tree.now) }
{
    match declared_under(b"routers", tree) {
        None => Ok(List::new(alloc)),
        Some(fields) => routers_in(alloc, style, fields),
    }
}

fn routers_in(
    alloc: Global,
    style: Style,
    fields: &Fields<Tree>,
) -> Result<List<(Bytes, RouterDef)>, Memory>
    ensures { IfOk result (λ defs. defs ≡ map (λ entry. (entry.0, router_of style entry.1)) fields.now) }
{
    let mut defs = List::new(alloc);
    for at in 0..fields.len() {
        let entry = router_entry(alloc, style, fields.key(at), fields.value(at))?;
        defs.push(entry)?;
    }
    Ok(defs)
}

fn router_entry(
    alloc: Global,
    style: Style,
    key: &[u8],
    tree: &Tree,
) -> Result<(Bytes, RouterDef), Memory>
    ensures { IfOk result (λ entry. entry ≡ (key.now, router_of style tree.now)) }
{
    let name = Bytes::from_slice(alloc, key)?;
    let def = read_router(alloc, style, tree)?;
    Ok((name, def))
}

fn read_services(
    alloc: Global,
    style: Style,
    tree: &Tree,
) -> Result<List<(Bytes, ServiceDef)>, Memory>
    ensures { IfOk result (λ defs. defs ≡ services_of style tree.now) }
{
    match declared_under(b"services", tree) {
        None => Ok(List::new(alloc)),
        Some(fields) => services_in(alloc, style, fields),
    }
}

fn services_in(
    alloc: Global,
    style: Style,
    fields: &Fields<Tree>,
) -> Result<List<(Bytes, ServiceDef)>, Memory>
    ensures { IfOk result (λ defs. defs ≡ map (λ entry. (entry.0, service_of style entry.1)) fields.now) }
{
    let mut defs = List::new(alloc);
    for at in 0..fields.len() {
        let entry = service_entry(alloc, style, fields.key(at), fields.value(at))?;
        defs.push(entry)?;
    }
    Ok(defs)
}

fn service_entry(
    alloc: Global,
    style: Style,
    key: &[u8],
    tree: &Tree,
) -> Result<(Bytes, ServiceDef), Memory>
    ensures { IfOk result (λ entry. entry ≡ (key.now, service_of style tree.now)) }
{
    let name = Bytes::from_slice(alloc, key)?;
    let def = read_service(alloc, style, tree)?;
    Ok((name, def))
}

fn read_middlewares(
    alloc: Global,
    style: Style,
    tree: &Tree,
) -> Result<List<(Bytes, MiddlewareDef)>, Memory>
    ensures { IfOk result (λ defs. defs ≡ middlewares_of style tree.now) }
{
    match declared_under(b"middlewares", tree) {
        None => Ok(List::new(alloc)),
        Some(fields) => middlewares_in(alloc, style, fields),
    }
}

fn middlewares_in(
    alloc: Global,
    style: Style,
    fields: &Fields<Tree>,
) -> Result<List<(Bytes, MiddlewareDef)>, Memory>
    ensures { IfOk result (λ defs. defs ≡ map (λ entry. (entry.0, middleware_of style entry.1)) fields.now) }
{
    let mut defs = List::new(alloc);
    for at in 0..fields.len() {
        let entry = middleware_entry(alloc, style, fields.key(at), fields.value(at))?;
        defs.push(entry)?;
    }
    Ok(defs)
}

fn middleware_entry(
    alloc: Global,
    style: Style,
    key: &[u8],
    tree: &Tree,
) -> Result<(Bytes, MiddlewareDef), Memory>
    ensures { IfOk result (λ entry. entry ≡ (key.now, middleware_of style tree.now)) }
{
    let name = Bytes::from_slice(alloc, key)?;
    let def = read_middleware(alloc, style, tree)?;
    Ok((name, def))
}
