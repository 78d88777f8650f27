//! A small configuration.
ghost use Rattle.std.specs.Prelude.{◌≡◌, ◌∷◌, [], true, IfOk, IfSome};
ghost use Rattle.generation.specs.Meaning.{plan_of};
ghost use Rattle.dyn_config.specs.Kept.{is_service};
ghost use Rattle.dyn_config.specs.Joined.{is_qualified};

use crate::building::{Built, build_generation};
use crate::generation::Generation;
use dyn_config::{BalancerDef, Entry, Merged, RouterDef, ServerDef, ServiceDef};
use px_base::{Bytes, List, Memory};
use rule_eval::RegexShop;
use std::alloc::Global;

/// The configuration of one router, `web@file`, with this rule, on all entry points, and of one service, whose one server is
/// under this URL. For tests, which need no file. None where the URL is none of `http`.
pub fn one_router(
    alloc: Global,
    number: u64,
    rule: &[u8],
    url: &[u8],
) -> Result<Option<Generation>, Memory>
    ensures { IfOk result (λ g. IfSome g (λ g. (plan_of g).number ≡ number)) }
{
    let merged = merged_of(alloc, router_of(alloc, rule)?, service_of(alloc, url)?)?;
    match build_generation(alloc, number, &merged, &mut RegexShop::new(alloc))? {
        Built::Generation(generation) => Ok(Some(generation)),
        Built::Later => Ok(None),
    }
}

fn merged_of(alloc: Global, router: RouterDef, service: ServiceDef) -> Result<Merged, Memory>
    requires { is_service service ≡ true }
{
    let app = entry_of(alloc, b"app@file", service)?;
    merged_with(alloc, router, app)
}

fn merged_with(alloc: Global, router: RouterDef, app: Entry<ServiceDef>) -> Result<Merged, Memory>
    requires app { is_qualified app ≡ true }
    requires service { is_service app.def ≡ true }
{
    let web = entry_of(alloc, b"web@file", router)?;
    joined(alloc, web, app)
}

// The definition that the file has under this qualified name.
fn entry_of<D: Drop>(alloc: Global, name: &[u8], def: D) -> Result<Entry<D>, Memory>
    ensures { IfOk result (λ e. (e.name ≡ name.now) × (e.provider ≡ 0) × (e.def ≡ def)) }
{
    let name = Bytes::from_slice(alloc, name)?;
    Ok(Entry {
        name,
        provider: 0,
        def,
    })
}

fn joined(alloc: Global, web: Entry<RouterDef>, app: Entry<ServiceDef>) -> Result<Merged, Memory>
    requires web { is_qualified web ≡ true }
    requires app { is_qualified app ≡ true }
    requires service { is_service app.def ≡ true }
{
    let routers = only(alloc, web)?;
    let services = only(alloc, app)?;
    Ok(Merged {
        routers,
        services,
        middlewares: List::new(alloc),
    })
}

// A list of one.
fn only<T: Drop>(alloc: Global, item: T) -> Result<List<T>, Memory>
    ensures { IfOk result (λ items. items ≡ item ∷ []) }
{
    let mut items = List::new(alloc);
    items.push(item)?;
    Ok(items)
}

fn router_of(alloc: Global, rule: &[u8]) -> Result<RouterDef, Memory> {
    Ok(RouterDef {
        entry_points: List::new(alloc),
        rule: Bytes::from_slice(alloc, rule)?,
        service: Bytes::from_slice(alloc, b"app")?,
        middlewares: List::new(alloc),
        priority: 0,
        tls: false,
        unsupported: false,
    })
}

fn service_of(alloc: Global, url: &[u8]) -> Result<ServiceDef, Memory>
    ensures { IfOk result (λ service. is_service service ≡ true) }
{
    let url = Bytes::from_slice(alloc, url)?;
    let servers = only(alloc, ServerDef { url, weight: 1 })?;
    Ok(ServiceDef::Balancer(BalancerDef {
        servers,
        sticky: None,
        health: None,
        pass_host: true,
        unsupported: false,
    }))
}
